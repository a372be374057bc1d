// One media line of a message and the attributes after it.
#![tactic(auto)]

mod attributes;
pub mod inside;
pub mod limit;

ghost use Rattle.std.specs.Prelude.{◌≡◌, ◌∷◌, [], ◌++◌, ◌<◌, ◌≤◌, length};
ghost use Rattle.octets.specs.Decimal.{read_number};
ghost use Rattle.octets.specs.Spans.{text_of};
ghost use Rattle.texts.specs.Tokens.{token};
ghost use Rattle.media.specs.Stream.{bare_stream};
ghost use Rattle.media.specs.Attributes.{media_of, is_attribute, attribute_of};
ghost use Rattle.media.specs.Meaning.{spans_of, stream_by, bare_places, taken_by};

use octets::Span;
use octets::decimal::read_number;
use octets::parts::part;
use octets::spans::{after, text};
use octets::words::starts;
use texts::{cut, inner, skip};

// The most octets of rtpmap and fmtp lines together, without their ends.
pub const MOST_ATTRIBUTES: usize = 256;

// No media line has port 0.
const LEAST_PORT: u16 = 1;

// At most three texts of a source: the first `count` spans, or all if it counts more than there are.
#[derive(Clone, Copy)]
pub struct Texts {
    pub count: u8,
    pub spans: [Span; 3],
}

impl Texts {
    // The spans of the texts.
    pub fn as_slice(&self) -> &[Span]
        ensures places { result.now ≡ spans_of self.now }
        ensures few { length result.now ≤ 3 }
    {
        let n = self.count as usize;
        if n < self.spans.len() {
            return &self.spans[..n];
        }
        &self.spans
    }

    // The same texts and one more.
    fn with(&self, sp: Span) -> Texts
        requires { length (spans_of self.now) < 3 }
        ensures { spans_of result ≡ spans_of self.now ++ (sp ∷ []) }
    {
        let mut spans = self.spans;
        spans[self.count as usize] = sp;
        Texts {
            count: self.count + 1,
            spans,
        }
    }
}

// What a media line and its attributes say, with the places of its texts in a source. An empty rtpmap means that there is none,
// and so does a ptime of 0.
#[derive(Clone, Copy)]
pub struct Stream {
    pub media: Span,
    pub port: u16,
    pub transport: Span,
    pub payload: u8,
    pub rtpmap: Span,
    pub fmtp: Texts,
    pub ptime: u8,
}

// A stream with these texts and numbers, and no attribute.
pub fn bare(media: Span, port: u16, transport: Span, payload: u8) -> Stream
    ensures { result ≡ bare_places media port transport payload }
{
    let none = Span { at: 0, len: 0 };
    Stream {
        media,
        port,
        transport,
        payload,
        rtpmap: none,
        fmtp: Texts {
            count: 0,
            spans: [none; 3],
        },
        ptime: 0,
    }
}

// The number that the k-th token of t, from 0, stands for.
pub(crate) fn token_number(t: &[u8], k: usize) -> Option<u16>
    ensures { result ≡ read_number (token k t.now) }
{
    read_number(part(t, b' ', k))
}

// The stream of a media line with this port and payload and no attribute yet; media and transport are these parts of the
// text of v in m.
fn bare_stream(m: &[u8], v: Span, media: Span, port: u16, transport: Span, payload: u8) -> Stream
    ensures { stream_by m.now result ≡ bare_stream (text_of (text_of m.now v) media) port (text_of (text_of m.now v) transport) payload }
{
    bare(inner(m, v, media), port, inner(m, v, transport), payload)
}

// Reads the media line t, the text of v in m.
fn media_text(m: &[u8], v: Span, t: &[u8]) -> Option<Stream>
    requires { t.now ≡ text_of m.now v }
    ensures { taken_by m.now result ≡ media_of t.now }
{
    let [media, port, transport, payload] = cut::<4>(t)?;
    let p = read_number(text(t, port))?;
    let n = read_number(text(t, payload))?;
    if p < LEAST_PORT {
        return None;
    }
    if 127 < n {
        return None;
    }
    Some(bare_stream(m, v, media, p, transport, n as u8))
}

// Reads what comes after `m=`: the text of v in m.
pub fn read_media(m: &[u8], v: Span) -> Option<Stream>
    ensures { taken_by m.now result ≡ media_of (text_of m.now v) }
{
    media_text(m, v, text(m, v))
}

// a, what comes after `a=`, is one of the three attributes that come only after a media line.
#[tactic(auto, unfolding(crate::specs::Attributes::is_attribute))]
pub fn is_attribute(a: &[u8]) -> bool
    ensures { result ≡ is_attribute a.now }
{
    starts(b"rtpmap:", a) || starts(b"fmtp:", a) || starts(b"ptime:", a)
}

// The stream s with the attribute line whose value, after `a=`, is the text of v in m.
pub fn add_attribute(s: Stream, m: &[u8], v: Span) -> Option<Stream>
    ensures { taken_by m.now result ≡ attribute_of (stream_by m.now s) (text_of m.now v) }
{
    let a = text(m, v);
    if starts(b"rtpmap:", a) {
        let w = skip(m, v, 7);
        return attributes::rtpmap(s, m, w, text(m, w));
    }
    if starts(b"fmtp:", a) {
        return attributes::fmtp(s, m, skip(m, v, 5));
    }
    if starts(b"ptime:", a) {
        return attributes::ptime(s, m, after(a, 6));
    }
    Some(s)
}
