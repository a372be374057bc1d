// message HEX: a message read.
use crate::{input, print};
use address::{Address, write};
use ipbcp::{Description, Message, MessageType};
use media::{Stream, Texts};
use notation::{push_refused, push_texts};
use octets::append::Cursor;
use octets::{Span, parts, spans};

fn push_kind(kind: MessageType, out: &mut Cursor<'_>) {
    match kind {
        MessageType::Request => out.push(b"Request"),
        MessageType::Accepted => out.push(b"Accepted"),
        MessageType::Confused => out.push(b"Confused"),
        MessageType::Rejected => out.push(b"Rejected"),
    }
}

// Appends a version and a type.
fn push_head(version: u8, kind: MessageType, out: &mut Cursor<'_>) {
    out.push_number_then(version as u64, b' ');
    push_kind(kind, out);
}

fn push_family(a: Address, out: &mut Cursor<'_>) {
    match a {
        Address::V4(_) => out.push(b" IP4 "),
        Address::V6 { high: _, low: _ } => out.push(b" IP6 "),
    }
}

// Appends the family and the address.
fn push_address(a: Address, out: &mut Cursor<'_>) {
    push_family(a, out);
    write::push_address(a, out);
}

// Appends a blank and a number.
fn push_number_after(n: u64, out: &mut Cursor<'_>) {
    out.push_octet(b' ');
    out.push_number(n);
}

// Appends a blank and the text of sp in m.
fn push_text(m: &[u8], sp: Span, out: &mut Cursor<'_>) {
    print::named(b" ", spans::text(m, sp), out);
}

// Appends a blank and the texts of fmtp.
fn push_fmtp(m: &[u8], x: Texts, out: &mut Cursor<'_>) {
    out.push_octet(b' ');
    push_texts(m, x, out);
}

// Appends the media line: port, media, transport, payload.
fn push_media(m: &[u8], s: Stream, out: &mut Cursor<'_>) {
    push_number_after(s.port as u64, out);
    push_text(m, s.media, out);
    push_text(m, s.transport, out);
    push_number_after(s.payload as u64, out);
}

// Appends the attributes after the media line: rtpmap, fmtp, ptime.
fn push_attributes(m: &[u8], s: Stream, out: &mut Cursor<'_>) {
    push_text(m, s.rtpmap, out);
    push_fmtp(m, s.fmtp, out);
    push_number_after(s.ptime as u64, out);
}

// Appends what a Request or Accepted of version 1 says.
fn push_described(m: &[u8], kind: MessageType, d: Description, out: &mut Cursor<'_>) {
    push_head(1, kind, out);
    push_address(d.address, out);
    push_media(m, d.stream, out);
    push_attributes(m, d.stream, out);
}

// Appends the answer to the message m.
fn push_message(m: &[u8], out: &mut Cursor<'_>) {
    match ipbcp::read(m) {
        Err(e) => push_refused(e.number(), out),
        Ok(Message::Typed { version, kind }) => push_head(version, kind, out),
        Ok(Message::Described { kind, description }) => {
            push_described(m, kind, description, out);
        }
    }
}

// Appends the answer to the line, unless it is a bad one.
pub(crate) fn push_answer(line: &[u8], data: &mut [u8], out: &mut Cursor<'_>) -> Option<()> {
    if parts::separators(line, b' ') != 1 {
        return None;
    }
    let n = input::unpack(line, 1, data)?;
    push_message(spans::up_to(data, n), out);
    Some(())
}
