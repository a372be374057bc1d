// tunnel BUFFER HEX: a tunnel packet opened, with a buffer of that length for a reply.
use crate::{input, print};
use bctp::Packet;
use notation::push_refused;
use octets::append::Cursor;
use octets::{parts, spans};

// Appends the answer to a packet. A reply is the two octets at the front of room.
fn push_packet(packet: &[u8], room: &mut [u8], out: &mut Cursor<'_>) {
    match bctp::open(packet, room) {
        Err(e) => push_refused(e.number(), out),
        Ok(Packet::Notice) => out.push(b"notice"),
        Ok(Packet::Reply) => print::named(b"reply ", spans::up_to(room, 2), out),
        Ok(Packet::Message) => print::named(b"message ", spans::after(packet, 2), out),
    }
}

// Appends the answer to the line, unless it is a bad one.
pub(crate) fn push_answer(
    line: &[u8],
    data: &mut [u8],
    room: &mut [u8],
    out: &mut Cursor<'_>,
) -> Option<()> {
    if parts::separators(line, b' ') != 2 {
        return None;
    }
    let buffer = input::number(line, 1)?;
    let n = input::unpack(line, 2, data)?;
    let k = (buffer as usize).min(room.len());
    push_packet(spans::up_to(data, n), &mut room[..k], out);
    Some(())
}
