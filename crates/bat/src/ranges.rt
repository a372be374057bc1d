// The ranges of fields that reading and writing share.
ghost use Rattle.std.specs.Prelude.{◌≡◌, ◌&&◌, length, leb};
ghost use Rattle.bat.specs.Values.{itu_codec, right_single, single_codec, all_indicators, right_indicators, right_type, sixteen_bits};

use crate::framing::octet_at;
use octets::spans::after;

// s has from `least` to `most` octets.
pub fn between(s: &[u8], least: usize, most: usize) -> bool
    ensures { result ≡ (leb least (length s.now) && leb (length s.now) most) }
{
    least <= s.len() && s.len() <= most
}

// s is the type and the configuration of an ITU-T codec.
#[tactic(auto, unfolding(crate::specs::Values::itu_codec))]
fn is_itu_codec(s: &[u8]) -> bool
    ensures { result ≡ itu_codec s.now }
{
    let kind = octet_at(s, 0);
    kind <= 12 && (kind < 1 || 6 < kind || s.len() == 1)
}

// The organisation and the octets after it are a single codec.
#[tactic(auto, unfolding(crate::specs::Values::right_single))]
pub fn right_codec(organisation: u8, information: &[u8]) -> bool
    ensures { result ≡ right_single (record { organisation = organisation; information = information.now }) }
{
    1 <= information.len() && organisation <= 2 && (organisation != 1 || is_itu_codec(information))
}

// s is the contents of a single codec.
pub fn is_codec(s: &[u8]) -> bool
    ensures { result ≡ right_single (single_codec s.now) }
{
    right_codec(octet_at(s, 0), after(s, 1))
}

// Every octet of s is a redirection indicator.
fn all_indicators(s: &[u8]) -> bool
    ensures { result ≡ all_indicators s.now }
{
    s.iter().all(|b| codes::is_indicator(*b))
}

// s is redirection indicators.
#[tactic(auto, unfolding(crate::specs::Values::right_indicators))]
pub fn are_indicators(s: &[u8]) -> bool
    ensures { result ≡ right_indicators s.now }
{
    between(s, 1, 16) && all_indicators(s)
}

// s is a signal type.
#[tactic(auto, unfolding(crate::specs::Values::right_type))]
pub fn is_type(s: &[u8]) -> bool
    ensures { result ≡ right_type s.now }
{
    s.len() == 1 && codes::is_signal(s[0])
}

// The number that the first two octets of s stand for, most significant first.
pub fn word(s: &[u8]) -> u16
    ensures { result ≡ sixteen_bits s.now }
{
    let a = octet_at(s, 0) as u16;
    let b = octet_at(s, 1) as u16;
    a * 256 + b
}
