// rewrite BUFFER COMPATIBILITY HEX: one element read, and written again with that compatibility
// octet into a buffer of that length. Refusals of the data come before refusals of the writing: 1, 2, 3, then 5, 4.
use crate::{input, print};
use bat::{Frame, Unframed, framing};
use notation::push_refused;
use octets::append::Cursor;
use octets::{Refusal, parts, spans};

// Writes the element f at the front of s again; none if it is not recognised.
fn rewritten(
    s: &[u8],
    f: Frame,
    compatibility: u16,
    room: &mut [u8],
) -> Option<Result<usize, Refusal>> {
    let contents = framing::contents(s, f);
    let value = bat_read::decode(f.identifier, contents).ok()?;
    if 255 < compatibility {
        return Some(Err(Refusal::OutOfRange));
    }
    Some(bat_write::write_element(value, contents, compatibility as u8, room))
}

// The one element of data. (Data that is counted has no octets that can't be framed.)
fn only_element(data: &[u8]) -> Result<Frame, Refusal> {
    framing::count(data, 1)?;
    match framing::first_element(data) {
        Ok(Some(f)) => Ok(f),
        Ok(None) | Err(Unframed) => Err(Refusal::Unframed),
    }
}

// Appends the answer to data, which is to be one element.
fn push_data(data: &[u8], compatibility: u16, room: &mut [u8], out: &mut Cursor<'_>) {
    let f = match only_element(data) {
        Ok(f) => f,
        Err(e) => {
            push_refused(e.number(), out);
            return;
        }
    };
    match rewritten(data, f, compatibility, room) {
        Some(written) => print::written(written, room, out),
        None => out.push(b"unknown"),
    }
}

// Appends the answer to the line, unless it is a bad one.
pub(crate) fn push_answer(
    line: &[u8],
    data: &mut [u8],
    room: &mut [u8],
    out: &mut Cursor<'_>,
) -> Option<()> {
    if parts::separators(line, b' ') != 3 {
        return None;
    }
    let buffer = input::number(line, 1)?;
    let compatibility = input::number(line, 2)?;
    let n = input::unpack(line, 3, data)?;
    let k = (buffer as usize).min(room.len());
    push_data(spans::up_to(data, n), compatibility, &mut room[..k], out);
    Some(())
}
