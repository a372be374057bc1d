// match LEAD BUFFER OFFERED OWN: two codec lists matched, with a buffer of that length for the reduced list.
use crate::{input, print};
use notation::push_refused;
use octets::append::Cursor;
use octets::{parts, spans};

// Whether the word names the own list as the leading one, if it names a list.
fn own_leads(word: &[u8]) -> Option<bool> {
    match word {
        b"offered" => Some(false),
        b"own" => Some(true),
        _ => None,
    }
}

// Appends the answer to two strings: a refusal, or the place of the chosen codec in the leading one and the reduced list.
fn push_match(offered: &[u8], own: &[u8], own_leads: bool, room: &mut [u8], out: &mut Cursor<'_>) {
    let m = bat_match::match_lists(offered, own, own_leads, room);
    match m.choice {
        Err(e) => push_refused(e.number(), out),
        Ok(p) => {
            out.push_number_then(p.at as u64, b'/');
            out.push_number_then(p.len as u64, b' ');
            print::written(m.reduced, room, out);
        }
    }
}

// Appends the answer to the line, unless it is a bad one.
pub(crate) fn push_answer(
    line: &[u8],
    data: &mut [u8],
    room: &mut [u8],
    out: &mut Cursor<'_>,
) -> Option<()> {
    if parts::separators(line, b' ') != 4 {
        return None;
    }
    let own_leads = own_leads(parts::part(line, b' ', 1))?;
    let buffer = input::number(line, 2)?;
    let n = input::unpack(line, 3, data)?;
    if data.len() < n {
        return None;
    }
    let m = input::unpack(line, 4, &mut data[n..])?;
    let offered = spans::up_to(data, n);
    let own = spans::up_to(spans::after(data, n), m);
    let k = (buffer as usize).min(room.len());
    push_match(offered, own, own_leads, &mut room[..k], out);
    Some(())
}
