// The event that a line names.
ghost use Rattle.std.specs.Prelude.{◌≡◌, false, [], ◌∷◌};
ghost use Rattle.octets.specs.Decimal.{read_number};
ghost use Rattle.octets.specs.Split.{part_at};
ghost use Rattle.octets.specs.Text.{char, tab};
ghost use Rattle.octets.specs.Words.{begins};
ghost use Rattle.trace_read.specs.Words.{fields_of};
ghost use Rattle.trace_read.specs.Events.{bare_of, command_of, fields_event};
ghost use Rattle.trace_read.specs.Meaning.{named_by, Asks};

use crate::{Asked, MOST_LINE};
use endpoint::Event;
use octets::decimal::read_number;
use octets::parts::{part, separators};
use octets::words::{equals, starts};

// The number in field k of a line.
pub(crate) fn number(s: &[u8], k: usize) -> Option<u16>
    ensures { result ≡ read_number (part_at k (fields_of s.now)) }
{
    read_number(part(s, b'\t', k))
}

// The command of a line of four fields: the word, a codec entry, a payload and a packet time.
fn command(s: &[u8]) -> Option<Event>
    ensures { named_by result ≡ command_of (fields_of s.now) }
{
    let entry = number(s, 1)?;
    let payload = number(s, 2)?;
    let ptime = number(s, 3)?;
    let word = part(s, b'\t', 0);
    if equals(b"U", word) {
        return Some(Event::SetUp(entry, payload, ptime));
    }
    if equals(b"C", word) {
        return Some(Event::Change(entry, payload, ptime));
    }
    None
}

// The event of a line of one field.
fn bare(s: &[u8]) -> Option<Event>
    ensures { named_by result ≡ bare_of (fields_of s.now) }
{
    let word = part(s, b'\t', 0);
    if equals(b"X", word) {
        return Some(Event::Release);
    }
    if equals(b"T1", word) {
        return Some(Event::T1);
    }
    if equals(b"T2", word) {
        return Some(Event::T2);
    }
    None
}

// The event of a line that does not begin with `M` and a tab.
fn other(s: &[u8]) -> Option<Event>
    requires { begins (char "M" ∷ tab ∷ []) s.now ≡ false }
    ensures { named_by result ≡ fields_event (fields_of s.now) }
{
    match separators(s, b'\t') {
        0 => bare(s),
        3 => command(s),
        _ => None,
    }
}

// The event of the line s, without its LF. The digits of a message are not read.
pub fn read_event(s: &[u8]) -> Option<Asked>
    ensures { Asks s.now result }
{
    if MOST_LINE <= s.len() {
        return None;
    }
    if starts(b"M\t", s) {
        return Some(Asked::Digits);
    }
    let event = other(s)?;
    Some(Asked::Event(event))
}
