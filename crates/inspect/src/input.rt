// The fields of a line.
use notation::{read_length, read_octets};
use octets::parts;
use octets::words::equals;

// The number in field k, capped at 65535: no table, buffer or octet needs more.
pub(crate) fn number(line: &[u8], k: usize) -> Option<u16> {
    read_length(parts::part(line, b' ', k))
}

// Puts the octets of field k into data, and answers how many there are: `-` stands for none, otherwise it has digits.
pub(crate) fn unpack(line: &[u8], k: usize, data: &mut [u8]) -> Option<usize> {
    let field = parts::part(line, b' ', k);
    if equals(b"-", field) {
        return Some(0);
    }
    if field.is_empty() || !read_octets(field, data) {
        return None;
    }
    Some(field.len() / 2)
}
