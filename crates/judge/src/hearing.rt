// What a message is to an endpoint.
ghost use Rattle.std.specs.Prelude.{ℕ, ◌≡◌, List, Some};
ghost use Rattle.std.proofs.Math.Option.{some};
ghost use Rattle.octets.specs.declared.Refusal.TheVariants.{WrongLine};
ghost use Rattle.ipbcp.specs.Reading.{Reading, read_message};
ghost use Rattle.bearer.specs.Hearing.{heard};
ghost use Rattle.bearer.specs.Meaning.{heard_in};
ghost use Rattle.judge.specs.Private.{Describes};

use bearer::Heard;
use ipbcp::{Description, Message, MessageType};
use octets::Refusal;

// A message of version 1 that is not alone in its type, and what it says if it can be read to its end.
fn hear_described(kind: MessageType, description: Option<Description>) -> Heard
    ensures { (m : List ℕ) → Describes m kind description → heard_in m result ≡ some (heard m) }
{
    match kind {
        MessageType::Request => Heard::Request(description),
        MessageType::Accepted => Heard::Accepted(description),
        MessageType::Confused | MessageType::Rejected => Heard::Declined,
    }
}

// A message of which only version and type are read.
fn hear_typed(kind: MessageType) -> Heard
    ensures { (m : List ℕ) (v : ℕ) → read_message m ≡ Reading.typed v kind → heard_in m result ≡ some (heard m) }
{
    match kind {
        MessageType::Request => Heard::OtherRequest,
        MessageType::Accepted => Heard::Accepted(None),
        MessageType::Confused | MessageType::Rejected => Heard::Declined, // of any version
    }
}

// A message with a wrong line: only its type matters.
fn hear_wrong(m: &[u8]) -> Heard
    requires { read_message m.now ≡ Reading.refused WrongLine }
    ensures { heard_in m.now result ≡ some (heard m.now) }
{
    match ipbcp::types::read_head(m) {
        Some(head) => hear_described(head.kind, None),
        None => Heard::Unreadable,
    }
}

// What m is to an endpoint.
pub fn hear(m: &[u8]) -> Heard
    ensures { heard_in m.now result ≡ some (heard m.now) }
{
    match ipbcp::read(m) {
        Ok(Message::Typed { version: _, kind }) => hear_typed(kind),
        Ok(Message::Described { kind, description }) => hear_described(kind, Some(description)),
        Err(e) => match e {
            Refusal::WrongLine => hear_wrong(m),
            _ => Heard::Unreadable,
        },
    }
}
