// Hexadecimal text, two digits for an octet: read in either case, written in upper case.
ghost use Rattle.std.specs.Prelude.{◌≡◌, [], ◌∷◌, ◌<◌};
ghost use Rattle.octets.specs.Append.{Pushes};
ghost use Rattle.octets.specs.Hex.{digit_in, hex_digit, hex_text};

use crate::append::Cursor;

// The value of a digit, of either case.
pub fn digit(b: u8) -> Option<u8>
    ensures { result ≡ digit_in b }
{
    match b {
        b'0'..=b'9' => Some(b - b'0'),
        b'A'..=b'F' => Some(b - b'A' + 10),
        b'a'..=b'f' => Some(b - b'a' + 10),
        _ => None,
    }
}

// The digit that stands for d.
fn hex_digit(d: u8) -> u8
    requires { d < 16 }
    ensures { result ≡ hex_digit d }
{
    if d < 10 {
        return b'0' + d;
    }
    b'A' + (d - 10)
}

// Appends b as two digits.
fn push_pair(b: u8, out: &mut Cursor<'_>)
    ensures { Pushes out.old out.new (hex_text (b ∷ [])) }
{
    out.push_octet(hex_digit(b / 16));
    out.push_octet(hex_digit(b % 16));
}

// Appends the octets of src, each as two digits.
pub fn push_hex(src: &[u8], out: &mut Cursor<'_>)
    ensures { Pushes out.old out.new (hex_text src.now) }
{
    for b in src {
        push_pair(*b, out);
    }
}
