// What the lines of a Request or Accepted say: those before the ipbcp line (the preamble), those between it and the media
// line, and those after the media line.
#![tactic(auto)]

mod lines;

ghost use Rattle.std.specs.Prelude.{◌≡◌};
ghost use Rattle.description.specs.Draft.{empty_draft};
ghost use Rattle.description.specs.Meaning.{preamble_by, preamble_in, is_ipbcp, is_skipped, preamble_line, LaterLine};

use address::Address;
use media::Stream;
use octets::Span;
use octets::spans::text;
use octets::words::{equals, starts};

// What the lines before the ipbcp line have said.
#[derive(Clone, Copy)]
pub struct Preamble {
    // How many of the five needed lines there were, capped at five.
    pub had: u8,
    pub address: Address,
}

// The preamble before the first line.
#[tactic(auto, unfolding(crate::specs::Meaning::preamble_by, crate::specs::Draft::empty_draft))]
pub fn start() -> Preamble
    ensures { preamble_by result ≡ empty_draft }
{
    Preamble {
        had: 0,
        address: Address::V4(0),
    }
}

// A line of this letter whose value is t is an ipbcp line.
#[tactic(auto, unfolding(crate::specs::Meaning::is_ipbcp))]
pub fn is_ipbcp(letter: u8, t: &[u8]) -> bool
    ensures { result ≡ is_ipbcp letter t.now }
{
    letter == b'a' && starts(b"ipbcp:", t)
}

// A line of this letter whose value is t is skipped, anywhere before the media line.
#[tactic(auto, unfolding(crate::specs::Meaning::is_skipped))]
pub fn is_skipped(letter: u8, t: &[u8]) -> bool
    ensures { result ≡ is_skipped letter t.now }
{
    if letter != b'a' {
        return lines::is_skipped_letter(letter);
    }
    !starts(b"ipbcp:", t) && !media::is_attribute(t)
}

// The preamble p with the line of this letter whose value is t. The ipbcp line and the media line are not part of it.
#[tactic(auto, using(crate::proofs::FieldLaws::fields))]
pub fn preamble_line(p: Preamble, letter: u8, t: &[u8]) -> Option<Preamble>
    ensures { preamble_in result ≡ preamble_line (preamble_by p) letter t.now }
{
    match letter {
        b'v' => lines::needed(p, 0, equals(b"0", t)),
        b'o' => lines::needed(p, 1, lines::is_origin(t)),
        b's' => lines::needed(p, 2, true),
        b'c' => lines::connection_line(p, t),
        b't' => lines::needed(p, 4, lines::is_time(t)),
        _ => is_skipped(letter, t).then_some(p),
    }
}

// The stream s with the line of this letter after its media line; the line's value is the text of v in m.
#[tactic(auto, using(crate::proofs::FieldLaws::laters))]
pub fn later_line(s: Stream, m: &[u8], letter: u8, v: Span) -> Option<Stream>
    ensures { LaterLine m.now s letter v result }
{
    if letter == b'a' {
        if starts(b"ipbcp:", text(m, v)) {
            return None;
        }
        return media::add_attribute(s, m, v);
    }
    lines::is_skipped_letter(letter).then_some(s)
}
