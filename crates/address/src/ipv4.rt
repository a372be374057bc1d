// IPv4 addresses as text.
ghost use Rattle.std.specs.Prelude.{◌≡◌};
ghost use Rattle.address.specs.Ipv4.{read_v4};
ghost use Rattle.address.specs.Private.{octet_at};

use crate::{Address, if_unicast};
use octets::decimal::read_number;
use octets::parts::find_from;
use octets::spans::{after, up_to};

// One number of an address: its value, and where its text ends.
#[derive(Clone, Copy)]
struct Part {
    value: u8,
    end: usize,
}

// The number, at most 255 and without leading zeros, whose text starts at i and ends at the next dot or the end.
fn read_part(s: &[u8], i: usize) -> Option<Part>
    ensures { result ≡ octet_at s.now i }
{
    // A number up to 255 has three digits at most, so what comes after four octets decides nothing.
    let near = up_to(after(s, i), 4);
    let digits = find_from(near, b'.', 0);
    if 3 < digits {
        return None;
    }
    let n = read_number(up_to(near, digits))?;
    if 255 < n {
        return None;
    }
    let value = n as u8;
    Some(Part {
        value,
        end: i + digits,
    })
}

// The address that all of s stands for.
pub fn read_ipv4(s: &[u8]) -> Option<Address>
    ensures { result ≡ read_v4 s.now }
{
    let mut n: u32 = 0;
    let mut i = 0;
    for _k in 0..3usize {
        let part = read_part(s, i)?;
        let end = part.end;
        if s.len() <= end {
            return None;
        }
        n = n * 256 + part.value as u32;
        i = end + 1;
    }
    let last = read_part(s, i)?;
    if last.end < s.len() {
        return None;
    }
    if_unicast(Address::V4(n * 256 + last.value as u32))
}
