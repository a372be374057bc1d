// The version and the type of a message.
ghost use Rattle.std.specs.Prelude.{◌≡◌, length, drop};
ghost use Rattle.description.specs.Draft.{ipbcp_word};
ghost use Rattle.ipbcp.specs.Types.{type_named, head_from, without_blank, head_in};
ghost use Rattle.ipbcp.specs.Private.{named_in};

use crate::{Head, MessageType};
use octets::decimal::read_number;
use octets::spans::{after, text};
use octets::words::equals;
use texts::cut;

// The type that w names.
#[tactic(auto, unfolding(crate::specs::Types::type_named, crate::specs::Types::type_word, crate::specs::Private::named_in))]
fn read_word(w: &[u8]) -> Option<MessageType>
    ensures { named_in result ≡ type_named w.now }
{
    if equals(b"Request", w) {
        return Some(MessageType::Request);
    }
    if equals(b"Accepted", w) {
        return Some(MessageType::Accepted);
    }
    if equals(b"Confused", w) {
        return Some(MessageType::Confused);
    }
    if equals(b"Rejected", w) {
        return Some(MessageType::Rejected);
    }
    None
}

// s is a version and a type.
fn head_of(s: &[u8]) -> Option<Head>
    ensures { result ≡ head_from s.now }
{
    let [version, kind] = cut::<2>(s)?;
    let n = read_number(text(s, version))?;
    if 255 < n {
        return None;
    }
    let kind = read_word(text(s, kind))?;
    Some(Head {
        version: n as u8,
        kind,
    })
}

// s without the blank at its start, if it has one.
#[tactic(auto, using(crate::proofs::TypeLaws::blanks))]
fn without_blank(s: &[u8]) -> &[u8]
    ensures { result.now ≡ without_blank s.now }
{
    if s.len() < 1 {
        return s;
    }
    if s[0] == b' ' {
        return &s[1..];
    }
    s
}

// What an ipbcp line says; t is its value, which begins with the six octets of "ipbcp:".
pub(crate) fn read_value(t: &[u8]) -> Option<Head>
    ensures { result ≡ head_from (without_blank (drop (length ipbcp_word) t.now)) }
{
    head_of(without_blank(after(t, 6)))
}

// The version and the type of m, if both can be read. Of the lines after the ipbcp line, only the form is checked.
pub fn read_head(m: &[u8]) -> Option<Head>
    ensures { result ≡ head_in m.now }
{
    let mut i = 0;
    while i < m.len() {
        let line = sdp::next_line(m, i)?;
        let t = text(m, line.value);
        if description::is_ipbcp(line.letter, t) {
            if sdp::in_lines(after(m, line.next)) {
                return read_value(t);
            }
            return None;
        }
        i = line.next;
    }
    None
}
