// The contents of each simple element, by its identifier.
ghost use Rattle.std.specs.Prelude.{◌≡◌, drop};
ghost use Rattle.std.proofs.Math.Option.{some};
ghost use Rattle.bat_read.specs.Private.{Stands};
ghost use Rattle.bat.specs.Values.{action_in, backbone_in, address_in, single_in, report_in, characteristics_in, control_in, tunnelling_in, unit_in, capability_in, indicators_in, type_in, duration_in};
ghost use Rattle.bat.specs.ValueMeaning.{decoding_in};

use bat::{SingleCodec, Unrecognised, Value};
use octets::Span;

// All of s.
fn all(s: &[u8]) -> Span
    ensures { Stands s.now s.now result }
{
    Span {
        at: 0,
        len: s.len(),
    }
}

// What follows the first n octets of s.
fn rest(s: &[u8], n: usize) -> Span
    ensures { Stands s.now (drop n s.now) result }
{
    if s.len() < n {
        return Span { at: 0, len: 0 };
    }
    Span {
        at: n,
        len: s.len() - n,
    }
}

// 1 action.
pub(crate) fn action(s: &[u8]) -> Result<Value, Unrecognised>
    ensures { decoding_in s.now result ≡ some (action_in s.now) }
{
    if s.len() != 1 {
        return Err(Unrecognised { inner: None });
    }
    let b = s[0];
    if codes::is_action(b) {
        return Ok(Value::Action(b));
    }
    Err(Unrecognised { inner: None })
}

// 2 backbone connection.
pub(crate) fn backbone(s: &[u8]) -> Result<Value, Unrecognised>
    ensures { decoding_in s.now result ≡ some (backbone_in s.now) }
{
    if bat::ranges::between(s, 1, 4) {
        return Ok(Value::Backbone(all(s)));
    }
    Err(Unrecognised { inner: None })
}

// 3 interworking address.
pub(crate) fn address(s: &[u8]) -> Result<Value, Unrecognised>
    ensures { decoding_in s.now result ≡ some (address_in s.now) }
{
    if bat::ranges::between(s, 1, 20) {
        return Ok(Value::Address(all(s)));
    }
    Err(Unrecognised { inner: None })
}

// 5 single codec.
pub(crate) fn single(s: &[u8]) -> Result<Value, Unrecognised>
    ensures { decoding_in s.now result ≡ some (single_in s.now) }
{
    if bat::ranges::is_codec(s) {
        return Ok(Value::Single(SingleCodec {
            organisation: bat::framing::octet_at(s, 0),
            information: rest(s, 1),
        }));
    }
    Err(Unrecognised { inner: None })
}

// 6 compatibility report.
pub(crate) fn report(s: &[u8]) -> Result<Value, Unrecognised>
    ensures { decoding_in s.now result ≡ some (report_in s.now) }
{
    if s.len() < 1 {
        return Err(Unrecognised { inner: None });
    }
    if (s.len() - 1) % 3 != 0 {
        return Err(Unrecognised { inner: None });
    }
    Ok(Value::Report {
        reason: s[0],
        diagnostics: rest(s, 1),
    })
}

// 7 connection characteristics.
pub(crate) fn characteristics(s: &[u8]) -> Result<Value, Unrecognised>
    ensures { decoding_in s.now result ≡ some (characteristics_in s.now) }
{
    if s.len() != 1 {
        return Err(Unrecognised { inner: None });
    }
    let b = s[0];
    if b <= 4 {
        return Ok(Value::Characteristics(b));
    }
    Err(Unrecognised { inner: None })
}

// 8 bearer control information.
pub(crate) fn control(s: &[u8]) -> Result<Value, Unrecognised>
    ensures { decoding_in s.now result ≡ some (control_in s.now) }
{
    if 1 <= s.len() {
        return Ok(Value::Control(all(s)));
    }
    Err(Unrecognised { inner: None })
}

// 9 tunnelling.
pub(crate) fn tunnelling(s: &[u8]) -> Result<Value, Unrecognised>
    ensures { decoding_in s.now result ≡ some (tunnelling_in s.now) }
{
    if s.len() != 1 {
        return Err(Unrecognised { inner: None });
    }
    Ok(Value::Tunnelling(s[0] % 2 == 1))
}

// 10 control unit.
pub(crate) fn unit(s: &[u8]) -> Result<Value, Unrecognised>
    ensures { decoding_in s.now result ≡ some (unit_in s.now) }
{
    if s.len() < 1 {
        return Err(Unrecognised { inner: None });
    }
    let n = bat::framing::octet_at(s, 0) as usize;
    if s.len() - 1 <= n {
        return Err(Unrecognised { inner: None });
    }
    Ok(Value::Unit {
        network: Span { at: 1, len: n },
        local: rest(s, 1 + n),
    })
}

// 12 redirection capability.
pub(crate) fn capability(s: &[u8]) -> Result<Value, Unrecognised>
    ensures { decoding_in s.now result ≡ some (capability_in s.now) }
{
    if s.len() < 1 {
        return Err(Unrecognised { inner: None });
    }
    if bat::framing::count_unmarked(s) != s.len() - 1 {
        return Err(Unrecognised { inner: None });
    }
    Ok(Value::Capability(s[0] % 2 == 1))
}

// 13 redirection indicators.
pub(crate) fn indicators(s: &[u8]) -> Result<Value, Unrecognised>
    ensures { decoding_in s.now result ≡ some (indicators_in s.now) }
{
    if bat::ranges::are_indicators(s) {
        return Ok(Value::Indicators(all(s)));
    }
    Err(Unrecognised { inner: None })
}

// 14 signal type.
pub(crate) fn signal_type(s: &[u8]) -> Result<Value, Unrecognised>
    ensures { decoding_in s.now result ≡ some (type_in s.now) }
{
    if bat::ranges::is_type(s) {
        return Ok(Value::SignalType(bat::framing::octet_at(s, 0)));
    }
    Err(Unrecognised { inner: None })
}

// 15 duration.
pub(crate) fn duration(s: &[u8]) -> Result<Value, Unrecognised>
    ensures { decoding_in s.now result ≡ some (duration_in s.now) }
{
    if s.len() != 2 {
        return Err(Unrecognised { inner: None });
    }
    Ok(Value::Duration(bat::ranges::word(s)))
}
