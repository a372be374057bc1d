// Q.1970 messages (IPBCP) of version 1: what they are, and reading them.
#![tactic(auto)]

pub mod types;

ghost use Rattle.std.specs.Prelude.{◌≡◌};
ghost use Rattle.std.proofs.Math.Option.{none, some};
ghost use Rattle.description.specs.Draft.{empty_draft};
ghost use Rattle.ipbcp.specs.Types.{head_in};
ghost use Rattle.ipbcp.specs.Reading.{is_described, by_head, read_message};
ghost use Rattle.ipbcp.specs.Private.{after_text, complete, ReadsLater, ReadsMedia, ReadsStream, Reached, TypeAlone, Describes};
ghost use Rattle.ipbcp.specs.Meaning.{reading_in};

use address::Address;
use media::Stream;
use octets::spans::{after, text};
use octets::{Refusal, Span};

// The longest message that is read.
pub const MOST_READ: usize = 512;

// The type of a message.
#[derive(Clone, Copy, PartialEq, Eq)]
pub enum MessageType {
    Request,
    Accepted,
    Confused,
    Rejected,
}

// What the ipbcp line says.
#[derive(Clone, Copy)]
pub struct Head {
    pub version: u8,
    pub kind: MessageType,
}

// What a Request or Accepted of version 1 says. The texts of the stream are places in the message.
#[derive(Clone, Copy)]
pub struct Description {
    pub address: Address,
    pub stream: Stream,
}

// The answer to a message that is not refused.
#[derive(Clone, Copy)]
pub enum Message {
    // Another version, or a Confused or Rejected: nothing more is read.
    Typed {
        version: u8,
        kind: MessageType,
    },
    // A Request or Accepted of version 1.
    Described {
        kind: MessageType,
        description: Description,
    },
}

// A message to be written. The texts of a stream are places in the source that is passed with it.
#[derive(Clone, Copy)]
pub enum Body {
    Request(Stream),
    Accepted(Stream),
    Confused,
    Rejected,
}

// The stream s with the lines of m from `from` on, which come after its media line.
fn later_lines(s: Stream, m: &[u8], from: usize) -> Option<Stream>
    ensures { ReadsLater m.now s from result }
{
    let mut stream = s;
    let mut i = from;
    while i < m.len() {
        let line = sdp::next_line(m, i)?;
        stream = description::later_line(stream, m, line.letter, line.value)?;
        i = line.next;
    }
    Some(stream)
}

// The stream of the media line whose value is the text of v in m, with the lines from `from` on after it.
fn media_lines(m: &[u8], v: Span, from: usize) -> Option<Stream>
    ensures { ReadsMedia m.now v from result }
{
    let s = media::read_media(m, v)?;
    later_lines(s, m, from)
}

// The stream of the lines of m from `from` on, which come after the ipbcp line.
fn read_stream(m: &[u8], from: usize) -> Option<Stream>
    ensures { ReadsStream m.now from result }
{
    let mut i = from;
    while i < m.len() {
        let line = sdp::next_line(m, i)?;
        if line.letter == b'm' {
            return media_lines(m, line.value, line.next);
        }
        if !description::is_skipped(line.letter, text(m, line.value)) {
            return None;
        }
        i = line.next;
    }
    None
}

// A message of this type says more than its type.
#[tactic(auto, using(crate::proofs::ReadLaws::described_yes, crate::proofs::ReadLaws::described_no))]
fn is_described(kind: MessageType) -> bool
    ensures { result ≡ is_described kind }
{
    matches!(kind, MessageType::Request | MessageType::Accepted)
}

// The answer to m, which has a wrong line or lacks one: only its version and type, or Unreadable or WrongLine.
fn by_type(m: &[u8]) -> Result<Message, Refusal>
    requires { complete (after_text empty_draft m.now) ≡ none }
    ensures { reading_in m.now result ≡ some (by_head m.now (head_in m.now)) }
{
    let Some(h) = types::read_head(m) else {
        return Err(Refusal::Unreadable);
    };
    if h.version == 1 && is_described(h.kind) {
        return Err(Refusal::WrongLine);
    }
    Ok(Message::Typed {
        version: h.version,
        kind: h.kind,
    })
}

// The answer to m, which is only this version and type; of the lines from `from` on, only the form is checked.
#[tactic(auto, using(crate::proofs::ReadLaws::alones))]
fn type_alone(h: Head, m: &[u8], from: usize) -> Result<Message, Refusal>
    requires { TypeAlone m.now h from }
    ensures { reading_in m.now result ≡ some (by_head m.now (head_in m.now)) }
{
    if sdp::in_lines(after(m, from)) {
        return Ok(Message::Typed {
            version: h.version,
            kind: h.kind,
        });
    }
    Err(Refusal::Unreadable)
}

// The answer to m, a Request or Accepted of version 1, whose lines from `from` on come after the ipbcp line.
#[tactic(auto, using(crate::proofs::ReadLaws::describing))]
fn describe(kind: MessageType, address: Address, m: &[u8], from: usize) -> Result<Message, Refusal>
    requires { Describes m.now kind address from }
    ensures { reading_in m.now result ≡ some (by_head m.now (head_in m.now)) }
{
    let Some(s) = read_stream(m, from) else {
        if sdp::in_lines(after(m, from)) {
            return Err(Refusal::WrongLine);
        }
        return Err(Refusal::Unreadable);
    };
    let stream = media::inside::keep_inside(s, m);
    Ok(Message::Described {
        kind,
        description: Description { address, stream },
    })
}

// The answer to m, whose lines before `from` are right; the last of them is the ipbcp line, which says h.
#[tactic(auto, using(crate::proofs::ReadLaws::typeds))]
fn read_typed(h: Option<Head>, address: Address, m: &[u8], from: usize) -> Result<Message, Refusal>
    requires { Reached m.now h address from }
    ensures { reading_in m.now result ≡ some (by_head m.now (head_in m.now)) }
{
    let Some(h) = h else {
        return Err(Refusal::Unreadable);
    };
    if h.version == 1 && is_described(h.kind) {
        return describe(h.kind, address, m, from);
    }
    type_alone(h, m, from)
}

// The answer to m, which is not too long.
fn read_short(m: &[u8]) -> Result<Message, Refusal>
    ensures { reading_in m.now result ≡ some (by_head m.now (head_in m.now)) }
{
    let mut p = description::start();
    let mut i = 0;
    while i < m.len() {
        let Some(line) = sdp::next_line(m, i) else {
            return by_type(m);
        };
        let t = text(m, line.value);
        if description::is_ipbcp(line.letter, t) {
            if p.had < 5 {
                return by_type(m);
            }
            return read_typed(types::read_value(t), p.address, m, line.next);
        }
        let Some(more) = description::preamble_line(p, line.letter, t) else {
            return by_type(m);
        };
        p = more;
        i = line.next;
    }
    by_type(m)
}

// What m says.
#[tactic(auto, using(crate::proofs::ReadLaws::reading))]
pub fn read(m: &[u8]) -> Result<Message, Refusal>
    ensures { reading_in m.now result ≡ some (read_message m.now) }
{
    if MOST_READ < m.len() {
        return Err(Refusal::MessageTooLong);
    }
    read_short(m)
}
