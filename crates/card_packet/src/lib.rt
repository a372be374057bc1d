// Reads a message and writes it again in a tunnel packet, as C calls it, by the crate `card_packet_c`: in a test, other programs
// read the packets.
#![tactic(auto)]

ghost use Rattle.std.specs.Prelude.{◌≡◌};
ghost use Rattle.ipbcp.specs.Reading.{read_message};
ghost use Rattle.card_packet.specs.Again.{put_for_c, Rewrites};
ghost use Rattle.card_packet.specs.Private.{body_of};

use ipbcp::{Body, Message, MessageType};
use media::Stream;
use octets::{REFUSED, Refusal};

// The body of a message of this type.
fn body_of(kind: MessageType, stream: Stream) -> Body
    ensures { result ≡ body_of kind stream }
{
    match kind {
        MessageType::Request => Body::Request(stream),
        MessageType::Accepted => Body::Accepted(stream),
        MessageType::Confused => Body::Confused,
        MessageType::Rejected => Body::Rejected,
    }
}

// A writer's answer as one number.
fn code(r: Result<usize, Refusal>) -> usize
    ensures { result ≡ put_for_c r }
{
    match r {
        Ok(n) => n,
        Err(e) => REFUSED + e.number() as usize,
    }
}

// Puts a packet at the front of out whose message says what m says, with m's address as the own address. The
// answer is its length, or 0 if m is a version and type alone, or REFUSED plus the number that refuses m or the
// packet; then out stays as it was.
pub fn card_packet_rewrite(m: &[u8], out: &mut [u8]) -> usize
    ensures { Rewrites (read_message m.now) out.old result out.new }
{
    match ipbcp::read(m) {
        Err(e) => code(Err(e)),
        Ok(Message::Typed { .. }) => 0,
        Ok(Message::Described { kind, description }) => {
            let body = body_of(kind, description.stream);
            code(bctp::write_packet(body, description.address, m, out))
        }
    }
}
