// The value of a decoded element.
use crate::print;
use bat::{InnerDuration, InnerType, SingleCodec, Value, framing};
use octets::append::Cursor;
use octets::{Span, spans};

// Appends a name and a number.
fn push_named(name: &[u8], n: u64, out: &mut Cursor<'_>) {
    out.push(name);
    out.push_number(n);
}

// Appends a name, and 1 or 0.
fn push_flag(name: &[u8], b: bool, out: &mut Cursor<'_>) {
    push_named(name, b as u64, out);
}

// Appends a name, and the octets of sp in s.
fn push_octets(name: &[u8], s: &[u8], sp: Span, out: &mut Cursor<'_>) {
    print::named(name, spans::text(s, sp), out);
}

// Appends a single codec: the organisation, and the octets after it.
fn push_codec(organisation: u8, information: &[u8], out: &mut Cursor<'_>) {
    out.push_number_then(organisation as u64, b'.');
    notation::push_octets(information, out);
}

fn push_single(s: &[u8], c: SingleCodec, out: &mut Cursor<'_>) {
    out.push(b"codec=");
    push_codec(c.organisation, spans::text(s, c.information), out);
}

// Appends the codec whose contents are c.
fn push_contents(c: &[u8], out: &mut Cursor<'_>) {
    push_codec(framing::octet_at(c, 0), spans::after(c, 1), out);
}

// Appends the codecs in s, with a comma between them.
fn push_list(s: &[u8], out: &mut Cursor<'_>) {
    let mut rest = s;
    while !rest.is_empty() {
        let Ok(Some(f)) = framing::first_element(rest) else {
            return;
        };
        if rest.len() < s.len() {
            out.push_octet(b',');
        }
        push_contents(framing::contents(rest, f), out);
        rest = spans::after(rest, framing::whole_length(f));
    }
}

fn push_codecs(s: &[u8], sp: Span, out: &mut Cursor<'_>) {
    out.push(b"codecs=");
    push_list(spans::text(s, sp), out);
}

// Appends the diagnostics in s, three octets each, each after a `;`.
fn push_diagnostics(s: &[u8], out: &mut Cursor<'_>) {
    for d in s.chunks_exact(3) {
        let index = bat::ranges::word(&d[1..]);
        out.push_octet(b';');
        print::diagnostic(d[0], index as u64, out);
    }
}

fn push_report(reason: u8, s: &[u8], sp: Span, out: &mut Cursor<'_>) {
    push_named(b"report=", reason as u64, out);
    push_diagnostics(spans::text(s, sp), out);
}

// Appends a control unit: the network's octets, and the local ones.
fn push_unit(s: &[u8], network: Span, local: Span, out: &mut Cursor<'_>) {
    push_octets(b"unit=", s, network, out);
    push_octets(b".", s, local, out);
}

// Appends a signal: its type, and its duration if it has one.
fn push_signal(kind: InnerType, duration: Option<InnerDuration>, out: &mut Cursor<'_>) {
    push_named(b"signal=", kind.kind as u64, out);
    match duration {
        None => {}
        Some(d) => push_named(b";", d.duration as u64, out),
    }
}

// Appends the value v of an element with the contents s.
pub(crate) fn push_value(s: &[u8], v: Value, out: &mut Cursor<'_>) {
    match v {
        Value::Action(n) => push_named(b"action=", n as u64, out),
        Value::Backbone(sp) => push_octets(b"backbone=", s, sp, out),
        Value::Address(sp) => push_octets(b"address=", s, sp, out),
        Value::Codecs(sp) => push_codecs(s, sp, out),
        Value::Single(c) => push_single(s, c, out),
        Value::Report {
            reason,
            diagnostics,
        } => push_report(reason, s, diagnostics, out),
        Value::Characteristics(n) => push_named(b"characteristics=", n as u64, out),
        Value::Control(sp) => push_octets(b"control=", s, sp, out),
        Value::Tunnelling(b) => push_flag(b"tunnelling=", b, out),
        Value::Unit { network, local } => push_unit(s, network, local, out),
        Value::Signal { kind, duration } => push_signal(kind, duration, out),
        Value::Capability(b) => push_flag(b"capability=", b, out),
        Value::Indicators(sp) => push_octets(b"indicators=", s, sp, out),
        Value::SignalType(n) => push_named(b"type=", n as u64, out),
        Value::Duration(n) => push_named(b"duration=", n as u64, out),
    }
}
