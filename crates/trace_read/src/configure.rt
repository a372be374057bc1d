// The lines that configure the endpoint.
ghost use Rattle.std.specs.Prelude.{◌≡◌, true, ◌&&◌};
ghost use Rattle.octets.specs.Split.{part_at};
ghost use Rattle.configuration.specs.Configuration.{named};
ghost use Rattle.configuration.specs.Meaning.{codec_by, configuration_by, format_inside, config_inside};
ghost use Rattle.trace_read.specs.Words.{fields_of};
ghost use Rattle.trace_read.specs.Configuring.{either_family, general_fields, general_in, codec_of, payload_of, rightly, added_to, is_codec_line, codec_in};
ghost use Rattle.trace_read.specs.Meaning.{Configures};
ghost use Rattle.trace_read.specs.Private.{small_of, Finds};

use crate::events::number;
use address::Address;
use address::ipv4::read_ipv4;
use address::ipv6::read_ipv6;
use configuration::check::{right_codec, right_general};
use configuration::codecs::blank;
use configuration::{Codec, Config, Format, MOST_CODECS, MOST_NAME};
use octets::append::push;
use octets::decimal::read_number;
use octets::parts::{part, separators};
use octets::words::{digit_run, equals};

// The number in field k of a line, if it fits in an octet.
fn small_number(s: &[u8], k: usize) -> Option<u8>
    ensures { result ≡ small_of (part_at k (fields_of s.now)) }
{
    let n = number(s, k)?;
    if 255 < n {
        return None;
    }
    Some(n as u8)
}

// An address of either family.
fn read_host(s: &[u8]) -> Option<Address>
    ensures { result ≡ either_family s.now }
{
    match read_ipv4(s) {
        Some(a) => Some(a),
        None => read_ipv6(s),
    }
}

// The configuration of a `G` line's fields, with no codec yet.
fn general(s: &[u8]) -> Option<Config>
    ensures { Configures true (general_fields (fields_of s.now)) result }
{
    let own = read_host(part(s, b'\t', 1))?;
    let port = number(s, 2)?;
    let least = small_number(s, 3)?;
    let most = small_number(s, 4)?;
    let t1 = small_number(s, 5)?;
    let t2 = small_number(s, 6)?;
    let config = Config {
        own,
        port,
        least,
        most,
        t1,
        t2,
        count: 0,
        codecs: [blank(); MOST_CODECS],
    };
    right_general(config).then_some(config)
}

// The configuration of the `G` line s, without its LF.
pub fn read_general(s: &[u8]) -> Option<Config>
    ensures { Configures true (general_in s.now) result }
{
    if separators(s, b'\t') != 6 {
        return None;
    }
    if equals(b"G", part(s, b'\t', 0)) {
        return general(s);
    }
    None
}

// Whether the line is one of the `K` lines, right or wrong.
pub fn is_codec_line(s: &[u8]) -> bool
    ensures { result ≡ is_codec_line s.now }
{
    equals(b"K", part(s, b'\t', 0))
}

// The codec that a payload names.
fn read_payload(t: &[u8]) -> Option<Codec>
    ensures { Finds (payload_of t.now) result }
{
    let n = read_number(t)?;
    if 95 < n {
        return None;
    }
    Some(Codec {
        format: Format::Payload(n as u8),
        name: [0u8; MOST_NAME],
    })
}

// The codec that an encoding name names.
fn read_name(t: &[u8]) -> Option<Codec>
    ensures { Finds (rightly (named t.now)) result }
{
    if MOST_NAME < t.len() {
        return None;
    }
    let mut name = [0u8; MOST_NAME];
    push(t, &mut name, 0);
    let codec = Codec {
        format: Format::Named(t.len()),
        name,
    };
    right_codec(codec).then_some(codec)
}

// The codec that a field names.
fn read_codec(t: &[u8]) -> Option<Codec>
    ensures { Finds (codec_of t.now) result }
{
    if digit_run(t) {
        return read_payload(t);
    }
    read_name(t)
}

// The configuration with one codec more.
fn add_codec(c: Config, codec: Codec) -> Option<Config>
    ensures { Configures (config_inside c && format_inside codec.format) (added_to (configuration_by c) (codec_by codec)) result }
{
    let n = c.count;
    if MOST_CODECS <= n {
        return None;
    }
    let mut config = c;
    config.codecs[n] = codec;
    config.count = n + 1;
    Some(config)
}

// The configuration c with the codec of the `K` line s added. The line is without its LF.
pub fn read_codec_line(c: Config, s: &[u8]) -> Option<Config>
    ensures { Configures (config_inside c) (codec_in (configuration_by c) s.now) result }
{
    if separators(s, b'\t') != 1 {
        return None;
    }
    let codec = read_codec(part(s, b'\t', 1))?;
    add_codec(c, codec)
}
