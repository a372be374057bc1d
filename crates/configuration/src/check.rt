// Whether a configuration is valid.
ghost use Rattle.std.specs.Prelude.{◌≡◌, ◌&&◌, length};
ghost use Rattle.std.specs.List.{list_all};
ghost use Rattle.configuration.specs.Configuration.{between, most_name, all_visible, right_codec, right_times, right_codecs, right_general};
ghost use Rattle.configuration.specs.Meaning.{codec_by, codecs_by, configuration_by, format_inside, config_inside, checked};
ghost use Rattle.configuration.specs.Private.{right_place};

use crate::{Codec, Config, Format, MOST_CODECS, MOST_NAME};
use octets::Refusal;
use octets::spans::up_to;

// n is from a to b.
fn is_between(a: u8, b: u8, n: u8) -> bool
    ensures { result ≡ between a b n }
{
    a <= n && n <= b
}

// Each octet of s is 33 to 126.
#[tactic(auto, unfolding(crate::specs::Configuration::all_visible))]
fn all_visible(s: &[u8]) -> bool
    ensures { result ≡ all_visible s.now }
{
    s.iter().all(|b| is_between(33, 126, *b))
}

// s can be an encoding name.
fn right_name(s: &[u8]) -> bool
    ensures { result ≡ (between 1 most_name (length s.now) && all_visible s.now) }
{
    1 <= s.len() && s.len() <= MOST_NAME && all_visible(s)
}

// The entry is valid, and its name lies inside its array.
pub fn right_codec(k: Codec) -> bool
    ensures { result ≡ (format_inside k.format && right_codec (codec_by k)) }
{
    let format = k.format;
    let name = k.name;
    match format {
        Format::Payload(n) => n <= 95,
        Format::Named(n) => n <= MOST_NAME && right_name(up_to(&name, n)),
    }
}

// Each of the entries is valid.
fn all_right(ks: &[Codec]) -> bool
    ensures { result ≡ list_all right_place ks.now }
{
    ks.iter().all(|k| right_codec(*k))
}

// There are one to eight entries, each of them valid.
fn right_codecs(c: Config) -> bool
    ensures { result ≡ (config_inside c && right_codecs (codecs_by c)) }
{
    let n = c.count;
    let codecs = c.codecs;
    1 <= n && n <= MOST_CODECS && all_right(&codecs[..n])
}

// The packet times are 1 or more, least not above most.
fn right_times(least: u8, most: u8) -> bool
    ensures { result ≡ right_times least most }
{
    1 <= least && least <= most
}

// All but the codecs is valid.
pub fn right_general(c: Config) -> bool
    ensures { result ≡ right_general (configuration_by c) }
{
    1 <= c.port
        && address::is_unicast(c.own)
        && right_times(c.least, c.most)
        && is_between(1, 30, c.t1)
        && is_between(1, 30, c.t2)
}

// Refuses a configuration that is not valid.
pub fn check(c: Config) -> Result<(), Refusal>
    ensures { result ≡ checked c }
{
    if right_general(c) && right_codecs(c) {
        return Ok(());
    }
    Err(Refusal::BadConfiguration)
}
