// A codec list that is read.
ghost use Rattle.std.specs.Prelude.{◌≡◌, true, drop};
ghost use Rattle.bat_match.specs.Singles.{all_singles};

use bat::elements::Elements;

// The codec list in a string: its first compatibility octet, and where its contents begin. They are single codecs to the
// end of the string.
#[derive(Clone, Copy)]
pub(crate) struct FramedList<'a> {
    pub(crate) string: &'a [u8],
    pub(crate) compatibility: u8,
    pub(crate) from: usize,
    ghost singles: { all_singles (drop from string.now) ≡ true },
}

impl<'a> FramedList<'a> {
    ghost use Rattle.bat.specs.Elements.{placed_elements, left};

    // Its codecs.
    pub(crate) fn codecs(&self) -> Elements<'a>
        ensures { left result ≡ placed_elements self.now.from (drop self.now.from self.now.string.now) }
    {
        Elements::new(self.string, self.from)
    }
}
