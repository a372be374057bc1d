// Which codecs of the leading list are in the reduced list: a flag for each codec from the chosen one on.
ghost use Rattle.std.specs.Prelude.{◌≡◌, true, [], ◌≤◌, length, drop};
ghost use Rattle.octets.specs.Append.{Appends};
ghost use Rattle.bat_match.specs.Private.{all_singles, codecs_at, SharedAt, starting_before, flag_of, selection_after};

use crate::list::FramedList;
use crate::search::{has_codec, has_codec_before};
use octets::append::push_octet;

// The flag of the codec with these contents at a place of the leading list: 1 if the other list has it too, and it is not a
// repeat of one before it.
fn flag_of(contents: &[u8], leading: FramedList, at: usize, other: FramedList) -> u8
    ensures { result ≡ flag_of contents.now (starting_before at (codecs_at leading.entry.string.now leading.entry.from)) (codecs_at other.entry.string.now other.entry.from) }
{
    if has_codec(other, contents) {
        if has_codec_before(leading, at, contents) {
            return 0;
        }
        return 1;
    }
    0
}

// Puts a flag into flags for each codec of the leading list, the first of which is the chosen one, and answers how many
// there are.
pub(crate) fn select_codecs(leading: FramedList, other: FramedList, flags: &mut [u8]) -> usize
    requires { SharedAt leading.string.now leading.from (codecs_at other.string.now other.from) }
    ensures { Appends flags.old 0 (selection_after [] (codecs_at leading.entry.string.now leading.entry.from) (codecs_at other.entry.string.now other.entry.from)) result flags.new }
{
    let mut n = 0;
    for c in leading.codecs() {
        if c.at == leading.from {
            n = push_octet(1, flags, n);
        } else {
            let m = flag_of(c.contents(), leading, c.at, other);
            n = push_octet(m, flags, n);
        }
    }
    n
}
