// Decimal numbers as text: without leading zeros, at most 65535.
ghost use Rattle.std.specs.Prelude.{◌≡◌};
ghost use Rattle.octets.specs.Decimal.{number_from, read_number};

// The number that s's digits stand for; leading zeros are allowed.
fn digits(s: &[u8]) -> Option<u16>
    ensures { result ≡ number_from 0 s.now }
{
    let mut n: u32 = 0;
    for b in s {
        if !b.is_ascii_digit() {
            return None;
        }
        n = n * 10 + (*b - b'0') as u32;
        if 65535 < n {
            return None;
        }
    }
    Some(n as u16)
}

// The number that all of s stands for.
pub fn read_number(s: &[u8]) -> Option<u16>
    ensures { result ≡ read_number s.now }
{
    if s.len() == 0 {
        return None;
    }
    if s.len() < 2 {
        return digits(s);
    }
    if s[0] == b'0' {
        return None;
    }
    digits(s)
}
