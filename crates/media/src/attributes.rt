// The three attributes of a media line: v is the span in m of what comes after the colon, and t its text.
ghost use Rattle.std.specs.Prelude.{◌≡◌, length, eqb};
ghost use Rattle.octets.specs.Spans.{text_of};
ghost use Rattle.texts.specs.Tokens.{after_blank};
ghost use Rattle.media.specs.Attributes.{fitting, rtpmap_of, fmtp_of, ptime_of};
ghost use Rattle.media.specs.Meaning.{stream_by, taken_by};

use crate::{Stream, limit, token_number};
use octets::Span;
use octets::decimal::read_number;
use octets::spans::text;
use texts::{after_blank, inner};

// s, if its attributes are not too long.
#[tactic(auto, unfolding(crate::specs::Attributes::fitting, crate::specs::Meaning::taken_by))]
fn fitting(s: Stream, m: &[u8]) -> Option<Stream>
    ensures { taken_by m.now result ≡ fitting (stream_by m.now s) }
{
    limit::attributes_fit(s, m).then_some(s)
}

// The text of sp in m is empty.
fn is_empty(sp: Span, m: &[u8]) -> bool
    ensures { result ≡ eqb (length (text_of m.now sp)) 0 }
{
    text(m, sp).is_empty()
}

// The span in m of what comes after the first blank of t.
fn span_after_blank(m: &[u8], v: Span, t: &[u8]) -> Span
    requires { t.now ≡ text_of m.now v }
    ensures { text_of m.now result ≡ after_blank t.now }
{
    inner(m, v, after_blank(t))
}

// s with this rtpmap line.
pub(crate) fn rtpmap(s: Stream, m: &[u8], v: Span, t: &[u8]) -> Option<Stream>
    requires { t.now ≡ text_of m.now v }
    ensures { taken_by m.now result ≡ rtpmap_of (stream_by m.now s) t.now }
{
    if !is_empty(s.rtpmap, m) {
        return None;
    }
    let payload = token_number(t, 0)?;
    if payload != s.payload as u16 {
        return None;
    }
    let new = span_after_blank(m, v, t);
    if is_empty(new, m) {
        return None;
    }
    fitting(Stream { rtpmap: new, ..s }, m)
}

// s with this fmtp line.
pub(crate) fn fmtp(s: Stream, m: &[u8], v: Span) -> Option<Stream>
    ensures { taken_by m.now result ≡ fmtp_of (stream_by m.now s) (text_of m.now v) }
{
    if 3 <= s.fmtp.as_slice().len() {
        return None;
    }
    let fmtp = s.fmtp.with(v);
    fitting(Stream { fmtp, ..s }, m)
}

// s with this ptime line.
#[tactic(auto, unfolding(crate::specs::Attributes::ptime_of, crate::specs::Attributes::with_ptime, crate::specs::Meaning::taken_by, crate::specs::Meaning::stream_by, octets::specs::Decimal::on_number))]
pub(crate) fn ptime(s: Stream, m: &[u8], t: &[u8]) -> Option<Stream>
    ensures { taken_by m.now result ≡ ptime_of (stream_by m.now s) t.now }
{
    if s.ptime != 0 {
        return None;
    }
    let ptime = u8::try_from(read_number(t)?).ok()?;
    if ptime == 0 {
        return None;
    }
    Some(Stream { ptime, ..s })
}
