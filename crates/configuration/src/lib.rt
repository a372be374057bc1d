// An endpoint's configuration: whether it is valid, and which codec a command or a message names.
#![tactic(auto)]

pub mod check;
pub mod codecs;

ghost use Rattle.std.specs.Prelude.{◌≡◌};
ghost use Rattle.configuration.specs.Configuration.{ptime_none_or_in_range};
ghost use Rattle.configuration.specs.Meaning.{configuration_by};

use address::Address;

// The most codec entries, and the longest encoding name.
pub const MOST_CODECS: usize = 8;

pub const MOST_NAME: usize = 32;

// What identifies a codec entry: a payload, or an encoding name of this many octets.
#[derive(Clone, Copy)]
pub enum Format {
    Payload(u8),
    Named(usize),
}

// A codec entry: its format, and the array that has its name.
#[derive(Clone, Copy)]
pub struct Codec {
    pub format: Format,
    pub name: [u8; MOST_NAME],
}

// A configuration, of which the first `count` codecs are entries.
#[derive(Clone, Copy)]
pub struct Config {
    pub own: Address,
    pub port: u16,
    // The packet times in range, in milliseconds.
    pub least: u8,
    pub most: u8,
    // The timers, in seconds.
    pub t1: u8,
    pub t2: u8,
    pub count: usize,
    pub codecs: [Codec; MOST_CODECS],
}

// The packet time n is in range, or 0 for none.
pub fn none_or_in_range(c: Config, n: u16) -> bool
    ensures { result ≡ ptime_none_or_in_range (configuration_by c) n }
{
    n == 0 || c.least as u16 <= n && n <= c.most as u16
}
