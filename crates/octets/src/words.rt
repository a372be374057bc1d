// Fixed words and runs of digits.
ghost use Rattle.std.specs.Prelude.{◌≡◌};
ghost use Rattle.octets.specs.Decimal.{all_digits, is_digit};
ghost use Rattle.octets.specs.Words.{begins, same, digit_run};

// s begins with w.
pub fn starts(w: &[u8], s: &[u8]) -> bool
    ensures { result ≡ begins w.now s.now }
{
    s.starts_with(w)
}

// s is w.
pub fn equals(w: &[u8], s: &[u8]) -> bool
    ensures { result ≡ same w.now s.now }
{
    s == w
}

// b is a digit.
fn is_digit(b: u8) -> bool
    ensures { result ≡ is_digit b }
{
    b.is_ascii_digit()
}

// s has only digits.
fn all_digits(s: &[u8]) -> bool
    ensures { result ≡ all_digits s.now }
{
    s.iter().all(|b| is_digit(*b))
}

// s is one digit or more, and nothing else.
pub fn digit_run(s: &[u8]) -> bool
    ensures { result ≡ digit_run s.now }
{
    !s.is_empty() && all_digits(s)
}
