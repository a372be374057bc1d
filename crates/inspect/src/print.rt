// What several modes print.
use notation::{push_octets, push_refused};
use octets::append::Cursor;
use octets::{Refusal, spans};

// The answer to a bad line.
pub(crate) fn bad_line(out: &mut Cursor<'_>) {
    out.push(b"bad-line");
}

// Appends a name and octets.
pub(crate) fn named(name: &[u8], s: &[u8], out: &mut Cursor<'_>) {
    out.push(name);
    push_octets(s, out);
}

// Appends what a writer put at the front of room, or its refusal.
pub(crate) fn written(written: Result<usize, Refusal>, room: &[u8], out: &mut Cursor<'_>) {
    match written {
        Ok(n) => push_octets(spans::up_to(room, n), out),
        Err(e) => push_refused(e.number(), out),
    }
}

// Appends the identifier and the index of a diagnostic.
pub(crate) fn diagnostic(identifier: u8, index: u64, out: &mut Cursor<'_>) {
    out.push_number_then(identifier as u64, b',');
    out.push_number(index);
}
