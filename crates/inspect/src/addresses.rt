// address FAMILY HEX: the text of an address read, and the address written again.
use crate::input;
use address::{ipv4, ipv6, write};
use octets::append::Cursor;
use octets::{parts, spans};

// Appends the answer to the line, unless it is a bad one.
pub(crate) fn push_answer(line: &[u8], data: &mut [u8], out: &mut Cursor<'_>) -> Option<()> {
    if parts::separators(line, b' ') != 2 {
        return None;
    }
    let family = input::number(line, 1)?;
    let n = input::unpack(line, 2, data)?;
    let text = spans::up_to(data, n);
    let read = match family {
        4 => ipv4::read_ipv4(text),
        6 => ipv6::read_ipv6(text),
        _ => return None,
    };
    match read {
        Some(a) => write::push_address(a, out),
        None => out.push(b"no"),
    }
    Some(())
}
