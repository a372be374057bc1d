// Whether the fields of a message are in range.
ghost use Rattle.std.specs.Prelude.{◌≡◌, map};
ghost use Rattle.octets.specs.Spans.{text_of};
ghost use Rattle.media.specs.Meaning.{stream_by};
ghost use Rattle.ipbcp.specs.Writing.{is_token, all_texts_plain, right_media, right_attributes};
ghost use Rattle.ipbcp_write.specs.Private.{writable_stream, writable_body};

use ipbcp::Body;
use media::Stream;
use media::inside::stream_inside;
use media::limit::attributes_fit;
use octets::Span;
use octets::parts::find_from;
use octets::spans::text;
use sdp::all_plain;

// t is a token: not empty, without a blank, and of octets that may be part of a line.
#[tactic(auto, using(crate::proofs::RangeLaws::tokens))]
fn is_token(t: &[u8]) -> bool
    ensures { result ≡ is_token t.now }
{
    !t.is_empty() && t.len() <= find_from(t, b' ', 0) && all_plain(t)
}

// The fields of the media line are in range.
#[tactic(auto, using(crate::proofs::RangeLaws::medias))]
fn right_media(s: Stream, source: &[u8]) -> bool
    ensures { result ≡ right_media (stream_by source.now s) }
{
    is_token(text(source, s.media))
        && 1 <= s.port
        && is_token(text(source, s.transport))
        && s.payload <= 127
}

// The texts at these places may be part of lines.
fn are_plain(spans: &[Span], source: &[u8]) -> bool
    ensures { result ≡ all_texts_plain (map (text_of source.now) spans.now) }
{
    for sp in spans {
        if !all_plain(text(source, *sp)) {
            return false;
        }
    }
    true
}

// The fields of the attributes are in range.
#[tactic(auto, using(crate::proofs::RangeLaws::attributes))]
fn right_attributes(s: Stream, source: &[u8]) -> bool
    ensures { result ≡ right_attributes (stream_by source.now s) }
{
    all_plain(text(source, s.rtpmap))
        && are_plain(s.fmtp.as_slice(), source)
        && attributes_fit(s, source)
}

// The spans of the stream lie inside source, and its fields are in range.
#[tactic(auto, unfolding(crate::specs::Private::writable_stream))]
fn right_stream(s: Stream, source: &[u8]) -> bool
    ensures { result ≡ writable_stream source.now s }
{
    stream_inside(s, source) && right_media(s, source) && right_attributes(s, source)
}

// The fields of the message are in range.
#[tactic(auto, unfolding(crate::specs::Private::writable_body))]
pub(crate) fn right_body(body: Body, source: &[u8]) -> bool
    ensures { result ≡ writable_body source.now body }
{
    match body {
        Body::Request(s) | Body::Accepted(s) => right_stream(s, source),
        Body::Confused | Body::Rejected => true,
    }
}
