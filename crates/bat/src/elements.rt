// The elements of octets, one after the other.
ghost use Rattle.std.specs.Prelude.{◌≡◌, ◌+◌, ◌<◌, ◌^◌, length, drop};
ghost use Rattle.std.specs.Iterator.{YieldsFirstBy, item_count};

use crate::Frame;
use crate::framing::{contents, first_element, whole_length};
use octets::spans::after;

// An element: its place, how many octets it has, its frame, and the octets from its front on.
#[derive(Clone, Copy)]
pub struct Located<'a> {
    pub at: usize,
    pub length: usize,
    pub frame: Frame,
    pub octets: &'a [u8],
}

impl<'a> Located<'a> {
    ghost use Rattle.bat.specs.Elements.{placed_in};

    // Its contents.
    pub fn contents(&self) -> &'a [u8]
        ensures { result.now ≡ (placed_in self.now).element.contents }
    {
        contents(self.octets, self.frame)
    }
}

// The elements of octets from a place on, where `rest` is left of them, as far as they can be framed.
#[derive(Drop)]
pub struct Elements<'a> {
    rest: &'a [u8],
    at: usize,
    ghost place_fits: { at + length rest.now < 2 ^ 64 },
}

impl<'a> Elements<'a> {
    ghost use Rattle.bat.specs.Elements.{placed_elements, left};

    // The elements of s from a place on.
    pub fn new(s: &'a [u8], from: usize) -> Elements<'a>
        ensures { left result ≡ placed_elements from (drop from s.now) }
    {
        Elements {
            rest: after(s, from),
            at: from,
        }
    }
}

impl<'a> Iterator for Elements<'a> {
    ghost use Rattle.bat.specs.Elements.{left, placed_in};

    type Item = Located<'a>;

    ghost next_gives = { YieldsFirstBy placed_in left };

    ghost remaining = { item_count left };

    fn next(&mut self) -> Option<Located<'a>> {
        let octets = self.rest;
        let Ok(Some(frame)) = first_element(octets) else {
            return None;
        };
        let at = self.at;
        let length = whole_length(frame);
        self.rest = after(octets, length);
        self.at = at + length;
        Some(Located {
            at,
            length,
            frame,
            octets,
        })
    }
}
