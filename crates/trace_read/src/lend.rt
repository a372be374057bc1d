// The output buffer that a line of a detailed trace asks for.
ghost use Rattle.std.specs.Prelude.{◌≡◌, drop};
ghost use Rattle.trace_read.specs.Lending.{lent_after, lent_in};
ghost use Rattle.trace_read.specs.Meaning.{lent_by, lent_if};

use crate::{Lent, USUAL_ROOM};
use notation::read_length;
use octets::parts::find_from;
use octets::words::starts;

// What the line s asks for after `B` and its tab.
fn lend_after(s: &[u8]) -> Option<Lent>
    ensures { lent_if s.now result ≡ lent_after (drop 2 s.now) }
{
    let e = find_from(s, b'\t', 2);
    if s.len() <= e {
        return None;
    }
    let n = read_length(&s[2..e])?;
    Some(Lent {
        room: n as usize,
        at: e + 1,
    })
}

// What is lent to the event of the line s.
pub fn lend(detailed: bool, s: &[u8]) -> Lent
    ensures { lent_by s.now result ≡ lent_in detailed s.now }
{
    let usual = Lent {
        room: USUAL_ROOM,
        at: 0,
    };
    if detailed && starts(b"B\t", s) {
        return lend_after(s).unwrap_or(usual);
    }
    usual
}
