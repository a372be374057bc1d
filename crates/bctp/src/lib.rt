// The bearer control tunnelling protocol (Q.1990): two indicators before a message.
#![tactic(auto)]

ghost use Rattle.std.specs.Prelude.{◌≡◌, ◌&&◌, List, [], ◌∷◌, ℕ, ◌+◌, ◌≤◌, length, drop};
ghost use Rattle.std.proofs.Math.Option.{map};
ghost use Rattle.octets.specs.Puts.{Puts};
ghost use Rattle.ipbcp.specs.Writing.{message_octets_in};
ghost use Rattle.ipbcp.specs.Meaning.{content_in};
ghost use Rattle.bctp.specs.Packet.{right_first, right_second, has_error, tunnel_reply, opened_by, opened_packet, packet_text};
ghost use Rattle.bctp.specs.Meaning.{Opens};

use address::Address;
use ipbcp::Body;
use octets::Refusal;

// Octet 1 of version 1: bit 6, and 0 for the version.
const VERSION_1: u8 = 32;

// The error bit of either octet.
const ERROR: u8 = 64;

const VERSION_ERROR: u8 = VERSION_1 + ERROR;

// The protocol number of IPBCP.
const IPBCP: u8 = 32;

// What a packet was.
#[derive(Clone, Copy, Debug, PartialEq, Eq)]
pub enum Packet {
    // The peer reports an error in what it was sent.
    Notice,
    // A reply of two octets is at the front of the buffer.
    Reply,
    // What comes after the first two octets is a message.
    Message,
}

// The fixed bits of both indicators are right.
#[tactic(auto, unfolding(crate::specs::Packet::right_first, crate::specs::Packet::right_second))]
fn are_right(a: u8, b: u8) -> bool
    ensures { result ≡ (right_first a && right_second b) }
{
    a / 128 == 0 && a / 32 % 2 == 1 && b / 128 == 0
}

// The error bit of an indicator is set.
#[tactic(auto, unfolding(crate::specs::Packet::has_error))]
fn has_error(a: u8) -> bool
    ensures { result ≡ has_error a }
{
    a / 64 % 2 == 1
}

// Puts a reply into out, if there is room for it.
fn put_reply(a: u8, b: u8, out: &mut [u8]) -> Result<Packet, Refusal>
    ensures { (p : List ℕ) → Opens p out.old (tunnel_reply (a ∷ b ∷ [])) result out.new }
{
    if out.len() < 2 {
        return Err(Refusal::BufferTooShort);
    }
    out[0] = a;
    out[1] = b;
    Ok(Packet::Reply)
}

// Opens a packet whose indicators are a and b.
#[tactic(auto, using(crate::proofs::OpenLaws::opening))]
fn open_by(a: u8, b: u8, packet: &[u8], out: &mut [u8]) -> Result<Packet, Refusal>
    ensures { Opens packet.now out.old (opened_by a b (drop 2 packet.now)) result out.new }
{
    if !are_right(a, b) {
        return Err(Refusal::WrongIndicators);
    }
    if has_error(a) || has_error(b) {
        return Ok(Packet::Notice);
    }
    let protocol = b % 64;
    if a % 32 != 0 {
        return put_reply(VERSION_ERROR, protocol, out);
    }
    if protocol != IPBCP {
        return put_reply(VERSION_1, ERROR + protocol, out);
    }
    Ok(Packet::Message)
}

// Opens a packet. If a reply is due, it is put at the front of out.
#[tactic(auto, using(crate::proofs::OpenLaws::fronts))]
pub fn open(packet: &[u8], out: &mut [u8]) -> Result<Packet, Refusal>
    ensures { Opens packet.now out.old (opened_packet packet.now) result out.new }
{
    if packet.len() < 2 {
        return Err(Refusal::PacketTooShort);
    }
    open_by(packet[0], packet[1], packet, out)
}

// Puts the two indicators of a packet in front of a message, which out has from its third octet on.
#[tactic(auto, using(crate::proofs::WrapLaws::indicated))]
fn put_indicators(out: &mut [u8])
    requires { 2 ≤ length out.old }
    ensures { out.new ≡ packet_text (drop 2 out.old) }
{
    out[0] = VERSION_1;
    out[1] = IPBCP;
}

// Writes a packet with the message of body. The message's writer is lent all of out after the first two octets, so what refuses
// the message refuses the packet.
pub fn write_packet(
    body: Body,
    own: Address,
    source: &[u8],
    out: &mut [u8],
) -> Result<usize, Refusal>
    ensures { Puts (map packet_text (message_octets_in own (content_in source.now body))) out.old result out.new }
{
    if out.len() < 2 {
        // It is refused for its fields first, and then for the room.
        let end = out.len();
        ipbcp_write::write_message(body, own, source, &mut out[end..])?;
        return Err(Refusal::BufferTooShort);
    }
    let n = ipbcp_write::write_message(body, own, source, &mut out[2..])?;
    put_indicators(out);
    Ok(n + 2)
}
