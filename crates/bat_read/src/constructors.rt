// The contents of a constructor: one element after the other.
ghost use Rattle.std.specs.Prelude.{◌≡◌, List, ℕ, ◌≤◌, drop, Ok, Some};
ghost use Rattle.std.proofs.Math.Option.{some};
ghost use Rattle.bat.specs.Framing.{front};
ghost use Rattle.bat.specs.Values.{codecs_in, codec_list_in, is_single, is_type, is_duration, last_by, timed_by, signal_by, signal_in};
ghost use Rattle.bat.specs.FramingMeaning.{whole_length, element_in, front_in};
ghost use Rattle.bat.specs.ValueMeaning.{inner_type_in, decoding_in};
ghost use Rattle.bat_read.specs.Examining.{offence_of};

use bat::framing::{contents, first_element, whole_length};
use bat::{Frame, InnerDuration, InnerType, Unrecognised, Value};
use octets::Span;
use octets::spans::after;

// The element f at the front of s is a single codec.
fn is_single(s: &[u8], f: Frame) -> bool
    ensures { result ≡ is_single (element_in s.now f) }
{
    if f.identifier != 5 {
        return false;
    }
    bat::ranges::is_codec(contents(s, f))
}

// The place of the first element of s that is not a single codec, if there is one; octets that can't be framed count as
// one.
pub fn find_offence(s: &[u8]) -> Option<usize>
    ensures { result ≡ offence_of (codecs_in s.now) }
{
    let mut at = 0;
    while at < s.len() {
        let t = after(s, at);
        let Ok(Some(f)) = first_element(t) else {
            return Some(at);
        };
        if !is_single(t, f) {
            return Some(at);
        }
        at += whole_length(f);
    }
    None
}

// 4 codec list.
pub(crate) fn codec_list(s: &[u8]) -> Result<Value, Unrecognised>
    ensures { decoding_in s.now result ≡ some (codec_list_in s.now) }
{
    if s.len() == 0 {
        return Err(Unrecognised { inner: None });
    }
    match find_offence(s) {
        Some(d) => Err(Unrecognised { inner: Some(d) }),
        None => Ok(Value::Codecs(Span {
            at: 0,
            len: s.len(),
        })),
    }
}

// The element f at the front of s is a signal type.
fn is_type(s: &[u8], f: Frame) -> bool
    ensures { result ≡ is_type (element_in s.now f) }
{
    if f.identifier != 14 {
        return false;
    }
    bat::ranges::is_type(contents(s, f))
}

// The element f at the front of s is a duration.
fn is_duration(s: &[u8], f: Frame) -> bool
    ensures { result ≡ is_duration (element_in s.now f) }
{
    if f.identifier != 15 {
        return false;
    }
    contents(s, f).len() == 2
}

// After the signal type, which has d octets, comes s, with the element f at its front.
fn last(kind: InnerType, d: usize, s: &[u8], f: Frame) -> Result<Value, Unrecognised>
    requires f_value { front_in s.now (Ok (Some f)) ≡ some (front s.now) }
    requires d_bound { d ≤ 131327 }
    ensures { (m : List ℕ) → decoding_in m result ≡ some (last_by (inner_type_in kind) d (element_in s.now f) (drop (whole_length f) s.now)) }
{
    if is_duration(s, f) {
        let n = whole_length(f);
        if n < s.len() {
            return Err(Unrecognised { inner: Some(d + n) });
        }
        return Ok(Value::Signal {
            kind: kind,
            duration: Some(InnerDuration {
                compatibility: f.compatibility % 128,
                duration: bat::ranges::word(contents(s, f)),
            }),
        });
    }
    Err(Unrecognised { inner: Some(d) })
}

// After the signal type, which has d octets, comes s.
fn timed(kind: InnerType, d: usize, s: &[u8]) -> Result<Value, Unrecognised>
    requires { d ≤ 131327 }
    ensures { (m : List ℕ) → decoding_in m result ≡ some (timed_by (inner_type_in kind) d s.now) }
{
    match first_element(s) {
        Ok(Some(f)) => last(kind, d, s, f),
        Err(_) => Err(Unrecognised { inner: Some(d) }),
        Ok(None) => Ok(Value::Signal {
            kind: kind,
            duration: None,
        }),
    }
}

// The element f at the front of s is the first of a signal.
fn typed(s: &[u8], f: Frame) -> Result<Value, Unrecognised>
    requires { front_in s.now (Ok (Some f)) ≡ some (front s.now) }
    ensures { decoding_in s.now result ≡ some (signal_by (element_in s.now f) (drop (whole_length f) s.now)) }
{
    if is_type(s, f) {
        let d = whole_length(f);
        let kind = InnerType {
            compatibility: f.compatibility % 128,
            kind: bat::framing::octet_at(contents(s, f), 0),
        };
        return timed(kind, d, after(s, d));
    }
    Err(Unrecognised { inner: Some(0) })
}

// 11 signal.
pub(crate) fn signal(s: &[u8]) -> Result<Value, Unrecognised>
    ensures { decoding_in s.now result ≡ some (signal_in s.now) }
{
    match first_element(s) {
        Ok(Some(f)) => typed(s, f),
        Err(_) => Err(Unrecognised { inner: Some(0) }),
        Ok(None) => Err(Unrecognised { inner: None }),
    }
}
