// The codec entries of a configuration.
ghost use Rattle.std.specs.Prelude.{◌≡◌, take};
ghost use Rattle.std.specs.List.{list_any};
ghost use Rattle.octets.specs.Append.{Pushes};
ghost use Rattle.configuration.specs.Configuration.{suits, name_of, names, named_in};
ghost use Rattle.configuration.specs.Meaning.{codec_by, codecs_by, blank_codec, FoundAt};

use crate::{Codec, Config, Format, MOST_CODECS, MOST_NAME};
use octets::append::Cursor;
use octets::spans::up_to;
use octets::words::equals;

// The payload that a command names suits the entry.
pub fn suits_entry(k: Codec, payload: u16) -> bool
    ensures { result ≡ suits (codec_by k) payload }
{
    let format = k.format;
    match format {
        Format::Payload(n) => payload == n as u16,
        Format::Named(_) => 96 <= payload && payload <= 127,
    }
}

// Appends the text of the rtpmap line that goes with the entry.
pub fn push_name(k: Codec, out: &mut Cursor<'_>)
    ensures { Pushes out.old out.new (name_of (codec_by k)) }
{
    match k.format {
        Format::Payload(_) => {}
        Format::Named(n) => out.push(up_to(&k.name, n)),
    }
}

// A message's payload and rtpmap text name the entry.
fn names_entry(k: Codec, payload: u8, text: &[u8]) -> bool
    ensures { result ≡ names (codec_by k) payload text.now }
{
    let format = k.format;
    let name = k.name;
    match format {
        Format::Payload(n) => payload == n,
        Format::Named(n) => 96 <= payload && equals(up_to(&name, n), text),
    }
}

// The entries, at most as many as the array holds.
fn entries(c: &Config) -> &[Codec]
    ensures { result.now ≡ take c.now.count c.now.codecs }
{
    &c.codecs[..c.count.min(MOST_CODECS)]
}

// A message's payload and rtpmap text name one of the codecs.
fn any_named(codecs: &[Codec], payload: u8, text: &[u8]) -> bool
    ensures { result ≡ list_any (λ k. names (codec_by k) payload text.now) codecs.now }
{
    codecs.iter().any(|k| names_entry(*k, payload, text))
}

// A message's payload and rtpmap text name one of the entries.
pub fn names_any(c: Config, payload: u8, text: &[u8]) -> bool
    ensures { result ≡ named_in (codecs_by c) payload text.now }
{
    any_named(entries(&c), payload, text)
}

// Codec entry n, counted from 1.
pub fn entry_at(c: Config, n: u16) -> Option<Codec>
    ensures { FoundAt c n result }
{
    let i = (n as usize).checked_sub(1)?;
    let codecs = entries(&c);
    codecs.get(i).copied()
}

// A blank entry: payload 0, with zeros for a name.
pub fn blank() -> Codec
    ensures { result ≡ blank_codec }
{
    let name = [0u8; MOST_NAME];
    Codec {
        format: Format::Payload(0),
        name,
    }
}
