// The length of the rtpmap and fmtp lines together. A text may have any length, so a count is capped at one over the limit.
ghost use Rattle.std.specs.Prelude.{◌≡◌, map, length};
ghost use Rattle.octets.specs.Spans.{text_of};
ghost use Rattle.media.specs.Stream.{fmtp_text, rtpmap_lines, octets_together, attributes_fit};
ghost use Rattle.media.specs.Meaning.{texts_by, stream_by};
ghost use Rattle.media.specs.Private.{capped, Width};

use crate::{MOST_ATTRIBUTES, Stream, Texts};
use octets::Span;
use octets::spans::text;

// n, capped at one over the limit.
fn cap(n: usize) -> usize
    ensures { result ≡ capped n }
{
    n.min(MOST_ATTRIBUTES + 1)
}

// How many digits n has.
#[tactic(auto, using(crate::proofs::LimitLaws::widths))]
fn width(n: u8) -> usize
    ensures { Width n result }
{
    if n < 10 {
        return 1;
    }
    if n < 100 {
        return 2;
    }
    3
}

// The octets of the rtpmap line of s: "a=rtpmap:", the payload, a blank and the text.
#[tactic(auto, using(crate::proofs::LimitLaws::rtpmaps))]
fn rtpmap_octets(s: Stream, m: &[u8]) -> usize
    ensures { result ≡ capped (octets_together (rtpmap_lines (stream_by m.now s))) }
{
    let t = text(m, s.rtpmap);
    if t.is_empty() {
        return 0;
    }
    cap(cap(t.len()) + width(s.payload) + 10)
}

// The octets of an fmtp line with the text of sp: "a=fmtp:" and the text.
#[tactic(auto, using(crate::proofs::LimitLaws::fmtp_capped))]
fn fmtp_line(sp: Span, m: &[u8]) -> usize
    ensures { result ≡ capped (length (fmtp_text (text_of m.now sp))) }
{
    let t = text(m, sp);
    cap(cap(t.len()) + 7)
}

// The octets of the fmtp lines whose texts are x.
fn fmtp_octets(x: Texts, m: &[u8]) -> usize
    ensures { result ≡ capped (octets_together (map fmtp_text (texts_by m.now x))) }
{
    let mut n = 0;
    for sp in x.as_slice() {
        n = cap(n + fmtp_line(*sp, m));
    }
    n
}

// The rtpmap and fmtp lines of s, whose texts are in m, are not too long.
#[tactic(auto, using(crate::proofs::LimitLaws::all_fit))]
pub fn attributes_fit(s: Stream, m: &[u8]) -> bool
    ensures { result ≡ attributes_fit (stream_by m.now s) }
{
    rtpmap_octets(s, m) + fmtp_octets(s.fmtp, m) <= MOST_ATTRIBUTES
}
