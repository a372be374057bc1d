// The answer to a line, by its mode word.
use crate::{addresses, codec_match, elements, message, print, rewrite, tunnel};
use octets::append::Cursor;
use octets::parts;

// Appends what the line's mode answers, unless the line is a bad one. A mode gets `data` for the octets that the line's digits stand
// for, and `room` for what it writes.
fn push_mode(line: &[u8], data: &mut [u8], room: &mut [u8], out: &mut Cursor<'_>) -> Option<()> {
    match parts::part(line, b' ', 0) {
        b"elements" => elements::push_answer(line, data, out),
        b"rewrite" => rewrite::push_answer(line, data, room, out),
        b"tunnel" => tunnel::push_answer(line, data, room, out),
        b"message" => message::push_answer(line, data, out),
        b"address" => addresses::push_answer(line, data, out),
        b"match" => codec_match::push_answer(line, data, room, out),
        _ => None,
    }
}

// Appends the answer to the line.
pub(crate) fn push_answer(line: &[u8], data: &mut [u8], room: &mut [u8], out: &mut Cursor<'_>) {
    match push_mode(line, data, room, out) {
        Some(()) => {}
        None => print::bad_line(out),
    }
}
