// Elements written: the octets of a value's element, with the shortest length and one compatibility octet.
#![tactic(auto)]

mod contents;
mod element;
mod ranges;
mod selected;

ghost use Rattle.std.specs.Prelude.{◌≡◌, length};
ghost use Rattle.bat.specs.Framing.{most_octets};
ghost use Rattle.bat.specs.Values.{meant};
ghost use Rattle.octets.specs.Puts.{bounded, Puts};
ghost use Rattle.bat.specs.Writing.{element_text, element_octets_in};
ghost use Rattle.bat.specs.ValueMeaning.{value_by, value_in};
ghost use Rattle.bat_write.specs.Selected.{selected_list};
ghost use Rattle.bat_write.specs.Private.{identifier_in, selected_anew};

use bat::{MOST_OCTETS, Value};
use bat_read::constructors::find_offence;
use octets::Refusal;
use octets::append::push_octet;

// The most octets of contents: an identifier, two octets of length and one of compatibility come before them.
const MOST_CONTENTS: usize = MOST_OCTETS - 4;

// The identifier of a value's element.
fn identifier(value: Value) -> u8
    ensures { result ≡ identifier_in value }
{
    match value {
        Value::Action(_) => 1,
        Value::Backbone(_) => 2,
        Value::Address(_) => 3,
        Value::Codecs(_) => 4,
        Value::Single(_) => 5,
        Value::Report {
            reason: _,
            diagnostics: _,
        } => 6,
        Value::Characteristics(_) => 7,
        Value::Control(_) => 8,
        Value::Tunnelling(_) => 9,
        Value::Unit {
            network: _,
            local: _,
        } => 10,
        Value::Signal {
            kind: _,
            duration: _,
        } => 11,
        Value::Capability(_) => 12,
        Value::Indicators(_) => 13,
        Value::SignalType(_) => 14,
        Value::Duration(_) => 15,
    }
}

// Writes the element with these contents at the front of out.
fn put_element(
    identifier: u8,
    compatibility: u8,
    contents: &[u8],
    out: &mut [u8],
) -> Result<usize, Refusal>
    ensures { Puts (bounded most_octets (element_text identifier (meant compatibility) contents.now)) out.old result out.new }
{
    let n = contents.len();
    if MOST_CONTENTS < n {
        return Err(Refusal::OutOfRange);
    }
    let whole = element::whole_length(n);
    if out.len() < whole {
        return Err(Refusal::BufferTooShort);
    }
    element::push_element(identifier, compatibility, contents, out, 0);
    Ok(whole)
}

// Writes the element of a value whose spans are inside source.
fn write_inside(
    value: Value,
    source: &[u8],
    compatibility: u8,
    out: &mut [u8],
) -> Result<usize, Refusal>
    ensures { Puts (element_octets_in (meant compatibility) (value_by source.now value)) out.old result out.new }
{
    if ranges::in_range(value, source) {
        let mut scratch = [0u8; MOST_OCTETS];
        let n = contents::push_contents(value, source, &mut scratch, 0);
        return put_element(identifier(value), compatibility, &scratch[0..n], out);
    }
    Err(Refusal::OutOfRange)
}

// Writes the element of a value whose spans are places in source, with the compatibility bits of this octet.
pub fn write_element(
    value: Value,
    source: &[u8],
    compatibility: u8,
    out: &mut [u8],
) -> Result<usize, Refusal>
    ensures { Puts (element_octets_in (meant compatibility) (value_in source.now value)) out.old result out.new }
{
    if ranges::all_inside(value, source) {
        return write_inside(value, source, compatibility, out);
    }
    Err(Refusal::OutOfRange)
}

// Writes the element of the selected codecs of s, which have n octets, at the front of out.
fn put_selected(
    s: &[u8],
    selection: &[u8],
    n: usize,
    compatibility: u8,
    out: &mut [u8],
) -> Result<usize, Refusal>
    requires { n ≡ length (selected_anew selection.now s.now) }
    ensures { Puts (bounded most_octets (element_text 4 (meant compatibility) (selected_anew selection.now s.now))) out.old result out.new }
{
    if MOST_CONTENTS < n {
        return Err(Refusal::OutOfRange);
    }
    let whole = element::whole_length(n);
    if out.len() < whole {
        return Err(Refusal::BufferTooShort);
    }
    let h = element::push_head(4, n + 1, out, 0);
    let k = push_octet(128 + compatibility % 128, out, h);
    selected::push_selected(s, selection, out, k);
    Ok(whole)
}

// Writes the codec list of those codecs of s that are selected, with the compatibility bits of this octet. The k-th octet of
// `selection` is the flag of the k-th codec: 1 if it is selected; without a flag it is not. Refused as out of range if s is
// not the contents of a codec list, if no codec is selected, or if the element would be too long; then if out is too short.
pub fn write_selected(
    s: &[u8],
    selection: &[u8],
    compatibility: u8,
    out: &mut [u8],
) -> Result<usize, Refusal>
    ensures { Puts (element_octets_in (meant compatibility) (selected_list selection.now s.now)) out.old result out.new }
{
    if find_offence(s).is_some() {
        return Err(Refusal::OutOfRange);
    }
    let n = selected::selected_length(s, selection);
    if n == 0 {
        return Err(Refusal::OutOfRange);
    }
    put_selected(s, selection, n, compatibility, out)
}
