// Lines ended by LF, gathered in the caller's buffer from octets that arrive in parts of any length.
#![tactic(auto)]

ghost use Rattle.std.specs.Prelude.{◌≡◌, ◌||◌, ltb};
ghost use Rattle.octets.specs.Split.{Found};
ghost use Rattle.octets.specs.Text.{lf};
ghost use Rattle.line_input.specs.Gather.{Gathers};

use memchr::memchr;
use octets::append::push;
use octets::spans::{after, up_to};

// What a part of the input gave to the line that is being gathered.
#[derive(Clone, Copy)]
pub struct Gathered {
    // How many octets of the line are in the buffer.
    pub len: usize,
    // The line has more octets than the buffer.
    pub over: bool,
    // Where the rest of the part begins.
    pub next: usize,
    // The line's LF has come.
    pub ended: bool,
}

// The place of the first LF of part from `from` on, or the end.
fn find_lf(part: &[u8], from: usize) -> usize
    ensures { Found part.now lf from result }
{
    match memchr(b'\n', after(part, from)) {
        Some(k) => from + k,
        None => from.max(part.len()),
    }
}

// The line was too long before, or fewer octets were stored than it has.
fn is_over(over: bool, stored: usize, all: usize) -> bool
    ensures { result ≡ (over || ltb stored all) }
{
    over || stored < all
}

// Puts the octets of part, from `from` to its first LF or to its end, after the len octets that are in line. What does
// not fit is skipped.
pub fn gather(part: &[u8], from: usize, line: &mut [u8], len: usize, over: bool) -> Gathered
    ensures { Gathers part.now from line.old len over result line.new }
{
    let e = find_lf(part, from);
    let n = push(up_to(after(part, from), e - from), line, len);
    let full = is_over(over, n - len, e - from);
    if e < part.len() {
        return Gathered {
            len: n,
            over: full,
            next: e + 1,
            ended: true,
        };
    }
    Gathered {
        len: n,
        over: full,
        next: e,
        ended: false,
    }
}
