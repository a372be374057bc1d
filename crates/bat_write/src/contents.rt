// The contents of a value's element, appended to a buffer.
ghost use Rattle.std.specs.Prelude.{◌≡◌, ◌∷◌, ◌++◌, true, ◌&&◌, ◌≤◌, length};
ghost use Rattle.octets.specs.Append.{Appends};
ghost use Rattle.bat.specs.Values.{signal};
ghost use Rattle.bat.specs.Writing.{sixteen_bits_text, bit_text, codec_text, inner_duration_text, contents_text, inner_type_in_range, inner_duration_in_range};
ghost use Rattle.bat.specs.ValueMeaning.{value_by, single_codec_in, inner_type_in, inner_duration_in};
ghost use Rattle.bat_write.specs.Private.{report_of, value_in_range_in, contents_in, codecs_anew};

use crate::element::push_element;
use bat::framing::{contents, first_element, whole_length};
use bat::{InnerDuration, InnerType, SingleCodec, Value};
use octets::append::{push, push_octet};
use octets::spans::{after, text};

// A flag as a bit.
fn bit(b: bool) -> u8
    ensures { result ≡ bit_text b }
{
    if b {
        return 1;
    }
    0
}

// Appends sixteen bits, most significant first.
fn push_word(n: u16, out: &mut [u8], at: usize) -> usize
    ensures { Appends out.old at (sixteen_bits_text n) result out.new }
{
    let k = push_octet((n / 256) as u8, out, at);
    push_octet((n % 256) as u8, out, k)
}

// Appends each element of s as a single codec, with the shortest length and one compatibility octet.
fn push_codecs(s: &[u8], out: &mut [u8], at: usize) -> usize
    ensures { Appends out.old at (codecs_anew s.now) result out.new }
{
    let mut rest = s;
    let mut k = at;
    while let Ok(Some(f)) = first_element(rest) {
        k = push_element(5, f.compatibility, contents(rest, f), out, k);
        rest = after(rest, whole_length(f));
    }
    k
}

// Appends a single codec.
fn push_codec(c: SingleCodec, source: &[u8], out: &mut [u8], at: usize) -> usize
    ensures { Appends out.old at (codec_text (single_codec_in source.now c)) result out.new }
{
    let information = c.information;
    let k = push_octet(c.organisation, out, at);
    push(text(source, information), out, k)
}

// Appends a compatibility report whose diagnostics are s.
fn push_report(reason: u8, s: &[u8], out: &mut [u8], at: usize) -> usize
    requires { value_in_range_in (report_of reason s.now) ≡ true }
    ensures { Appends out.old at (contents_in (report_of reason s.now)) result out.new }
{
    let k = push_octet(reason, out, at);
    push(s, out, k)
}

// Appends two texts.
fn push_both(a: &[u8], b: &[u8], out: &mut [u8], at: usize) -> usize
    ensures { Appends out.old at (a.now ++ b.now) result out.new }
{
    let k = push(a, out, at);
    push(b, out, k)
}

// Appends the length of a network id, the network id and a local id.
fn push_unit(network: &[u8], local: &[u8], out: &mut [u8], at: usize) -> usize
    requires { length network.now ≤ 255 }
    ensures { Appends out.old at (length network.now ∷ (network.now ++ local.now)) result out.new }
{
    let k = push_octet(network.len() as u8, out, at);
    push_both(network, local, out, k)
}

// Appends the duration of a signal.
fn push_lasting(duration: Option<InnerDuration>, out: &mut [u8], at: usize) -> usize
    requires { inner_duration_in_range (inner_duration_in duration) ≡ true }
    ensures { Appends out.old at (inner_duration_text (inner_duration_in duration)) result out.new }
{
    match duration {
        None => at,
        Some(d) => {
            let word = [(d.duration / 256) as u8, (d.duration % 256) as u8];
            push_element(15, d.compatibility, &word, out, at)
        }
    }
}

// Appends the type and the duration of a signal.
fn push_signal(kind: InnerType, duration: Option<InnerDuration>, out: &mut [u8], at: usize) -> usize
    requires { (inner_type_in_range (inner_type_in kind) && inner_duration_in_range (inner_duration_in duration)) ≡ true }
    ensures { Appends out.old at (contents_text (signal (inner_type_in kind) (inner_duration_in duration))) result out.new }
{
    let code = [kind.kind];
    let k = push_element(14, kind.compatibility, &code, out, at);
    push_lasting(duration, out, k)
}

// Appends the contents of the element of a value that is in range.
pub(crate) fn push_contents(value: Value, source: &[u8], out: &mut [u8], at: usize) -> usize
    requires { value_in_range_in (value_by source.now value) ≡ true }
    ensures { Appends out.old at (contents_in (value_by source.now value)) result out.new }
{
    match value {
        Value::Action(n) => push_octet(n, out, at),
        Value::Backbone(p) => push(text(source, p), out, at),
        Value::Address(p) => push(text(source, p), out, at),
        Value::Codecs(p) => push_codecs(text(source, p), out, at),
        Value::Single(c) => push_codec(c, source, out, at),
        Value::Report {
            reason,
            diagnostics,
        } => push_report(reason, text(source, diagnostics), out, at),
        Value::Characteristics(n) => push_octet(n, out, at),
        Value::Control(p) => push(text(source, p), out, at),
        Value::Tunnelling(b) => push_octet(bit(b), out, at),
        Value::Unit { network, local } => push_unit(
            text(source, network),
            text(source, local),
            out,
            at,
        ),
        Value::Signal { kind, duration } => push_signal(kind, duration, out, at),
        Value::Capability(b) => push_octet(128 + bit(b), out, at),
        Value::Indicators(p) => push(text(source, p), out, at),
        Value::SignalType(n) => push_octet(n, out, at),
        Value::Duration(n) => push_word(n, out, at),
    }
}
