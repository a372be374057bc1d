// Whether the fields of a value are in range.
ghost use Rattle.std.specs.Prelude.{◌≡◌, ◌&&◌, length, leb};
ghost use Rattle.bat.specs.Values.{right_single};
ghost use Rattle.octets.specs.Spans.{inside};
ghost use Rattle.bat.specs.Writing.{inner_type_in_range, inner_duration_in_range};
ghost use Rattle.bat.specs.ValueMeaning.{value_by, single_codec_in, inner_type_in, inner_duration_in, value_inside};
ghost use Rattle.bat_write.specs.Private.{codecs_of, report_of, value_in_range_in};

use bat::{InnerDuration, InnerType, SingleCodec, Value};
use bat_read::constructors::find_offence;
use octets::Span;
use octets::spans::{is_inside, text};

// s is one or more single codecs and nothing else.
fn are_codecs(s: &[u8]) -> bool
    ensures { result ≡ value_in_range_in (codecs_of s.now) }
{
    1 <= s.len() && find_offence(s).is_none()
}

// c is a single codec.
fn is_codec(c: SingleCodec, source: &[u8]) -> bool
    ensures { result ≡ right_single (single_codec_in source.now c) }
{
    let information = c.information;
    bat::ranges::right_codec(c.organisation, text(source, information))
}

// s is diagnostics and nothing else; any reason will do.
fn are_diagnostics(reason: u8, s: &[u8]) -> bool
    ensures { result ≡ value_in_range_in (report_of reason s.now) }
{
    s.len() % 3 == 0
}

// The two are a network id and a local id.
fn are_unit(network: &[u8], local: &[u8]) -> bool
    ensures { result ≡ (leb (length network.now) 255 && leb 1 (length local.now)) }
{
    if 255 < network.len() {
        return false;
    }
    1 <= local.len()
}

// The compatibility of a signal's duration is seven bits.
fn is_duration(duration: Option<InnerDuration>) -> bool
    ensures { result ≡ inner_duration_in_range (inner_duration_in duration) }
{
    match duration {
        None => true,
        Some(d) => d.compatibility < 128,
    }
}

// The two are the type and the duration of a signal.
fn are_signal(kind: InnerType, duration: Option<InnerDuration>) -> bool
    ensures { result ≡ (inner_type_in_range (inner_type_in kind) && inner_duration_in_range (inner_duration_in duration)) }
{
    if 128 <= kind.compatibility {
        return false;
    }
    if codes::is_signal(kind.kind) {
        return is_duration(duration);
    }
    false
}

// The fields of the value are in range.
pub(crate) fn in_range(value: Value, source: &[u8]) -> bool
    ensures { result ≡ value_in_range_in (value_by source.now value) }
{
    match value {
        Value::Action(n) => codes::is_action(n),
        Value::Backbone(p) => bat::ranges::between(text(source, p), 1, 4),
        Value::Address(p) => bat::ranges::between(text(source, p), 1, 20),
        Value::Codecs(p) => are_codecs(text(source, p)),
        Value::Single(c) => is_codec(c, source),
        Value::Report {
            reason,
            diagnostics,
        } => are_diagnostics(reason, text(source, diagnostics)),
        Value::Characteristics(n) => n <= 4,
        Value::Control(p) => 1 <= text(source, p).len(),
        Value::Tunnelling(_) => true,
        Value::Unit { network, local } => are_unit(text(source, network), text(source, local)),
        Value::Signal { kind, duration } => are_signal(kind, duration),
        Value::Capability(_) => true,
        Value::Indicators(p) => bat::ranges::are_indicators(text(source, p)),
        Value::SignalType(n) => codes::is_signal(n),
        Value::Duration(_) => true,
    }
}

// Both spans are inside s.
fn are_inside(s: &[u8], p: Span, q: Span) -> bool
    ensures { result ≡ (inside s.now p && inside s.now q) }
{
    if is_inside(s, p) {
        return is_inside(s, q);
    }
    false
}

// The spans of the value are inside source.
pub(crate) fn all_inside(value: Value, source: &[u8]) -> bool
    ensures { result ≡ value_inside source.now value }
{
    match value {
        Value::Action(_) => true,
        Value::Backbone(p) => is_inside(source, p),
        Value::Address(p) => is_inside(source, p),
        Value::Codecs(p) => is_inside(source, p),
        Value::Single(c) => {
            let p = c.information;
            is_inside(source, p)
        }
        Value::Report {
            reason: _,
            diagnostics,
        } => is_inside(source, diagnostics),
        Value::Characteristics(_) => true,
        Value::Control(p) => is_inside(source, p),
        Value::Tunnelling(_) => true,
        Value::Unit { network, local } => are_inside(source, network, local),
        Value::Signal {
            kind: _,
            duration: _,
        } => true,
        Value::Capability(_) => true,
        Value::Indicators(p) => is_inside(source, p),
        Value::SignalType(_) => true,
        Value::Duration(_) => true,
    }
}
