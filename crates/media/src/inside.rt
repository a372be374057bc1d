// Streams whose spans lie inside their source, so that no length is made up.
ghost use Rattle.std.specs.Prelude.{◌≡◌};
ghost use Rattle.media.specs.Meaning.{texts_inside, stream_inside, KeptInside};
ghost use Rattle.media.specs.Private.{KeptSpan, KeptTexts};

use crate::{Stream, Texts};
use octets::Span;
use octets::spans::is_inside;

// The spans of x lie inside m, and there are at most three.
fn texts_inside(x: Texts, m: &[u8]) -> bool
    ensures { result ≡ texts_inside m.now x }
{
    if 3 < x.count {
        return false;
    }
    for sp in x.as_slice() {
        if !is_inside(m, *sp) {
            return false;
        }
    }
    true
}

// The spans of s lie inside m.
#[tactic(auto, unfolding(crate::specs::Meaning::stream_inside))]
pub fn stream_inside(s: Stream, m: &[u8]) -> bool
    ensures { result ≡ stream_inside m.now s }
{
    is_inside(m, s.media)
        && is_inside(m, s.transport)
        && is_inside(m, s.rtpmap)
        && texts_inside(s.fmtp, m)
}

// The part of sp that lies inside m.
fn clamp(m: &[u8], sp: Span) -> Span
    ensures { KeptSpan m.now sp result }
{
    if m.len() < sp.at {
        return Span { at: 0, len: 0 };
    }
    Span {
        at: sp.at,
        len: sp.len.min(m.len() - sp.at),
    }
}

// The same for the spans of x, of which there are then at most three.
fn clamp_texts(m: &[u8], x: Texts) -> Texts
    ensures { KeptTexts m.now x result }
{
    let count = x.as_slice().len() as u8;
    let mut spans = x.spans;
    for sp in spans.iter_mut() {
        *sp = clamp(m, *sp);
    }
    Texts { count, spans }
}

// The stream that says the same as s in m, with spans that lie inside m.
pub fn keep_inside(s: Stream, m: &[u8]) -> Stream
    ensures { KeptInside m.now s result }
{
    Stream {
        media: clamp(m, s.media),
        transport: clamp(m, s.transport),
        rtpmap: clamp(m, s.rtpmap),
        fmtp: clamp_texts(m, s.fmtp),
        ..s
    }
}
