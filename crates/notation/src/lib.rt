// How the programs show octets, texts and refusals, and how they read octets and the length of a buffer.
#![tactic(auto)]

ghost use Rattle.std.specs.Prelude.{◌≡◌, map};
ghost use Rattle.octets.specs.Append.{Pushes};
ghost use Rattle.octets.specs.Spans.{text_of};
ghost use Rattle.media.specs.Meaning.{texts_by};
ghost use Rattle.notation.specs.Notation.{octets_shown, text_shown, text_after, texts_after, texts_shown, refused_shown, ReadsOctets, length_in};
ghost use Rattle.notation.specs.Private.{large_in, pair_in, shown};

use media::Texts;
use octets::Span;
use octets::append::Cursor;
use octets::decimal::read_number;
use octets::hex::{digit, push_hex};
use octets::spans::text;
use octets::words::digit_run;

// Appends octets as digits, or the word if there are none.
fn push_shown(word: &[u8], s: &[u8], out: &mut Cursor<'_>)
    ensures { Pushes out.old out.new (shown word.now s.now) }
{
    if s.is_empty() {
        out.push(word);
        return;
    }
    push_hex(s, out);
}

// Appends octets as digits, or `-` if there are none.
pub fn push_octets(s: &[u8], out: &mut Cursor<'_>)
    ensures { Pushes out.old out.new (octets_shown s.now) }
{
    push_shown(b"-", s, out);
}

// Appends the text of sp in m as digits, or `empty` if it is empty.
fn push_span(m: &[u8], sp: Span, out: &mut Cursor<'_>)
    ensures { Pushes out.old out.new (text_shown (text_of m.now sp)) }
{
    push_shown(b"empty", text(m, sp), out);
}

// Appends a comma and the text of sp in m.
fn push_next(m: &[u8], sp: Span, out: &mut Cursor<'_>)
    ensures { Pushes out.old out.new (text_after (text_of m.now sp)) }
{
    out.push_octet(b',');
    push_span(m, sp, out);
}

// Appends the texts of the spans, a comma before each.
fn push_rest(m: &[u8], spans: &[Span], out: &mut Cursor<'_>)
    ensures { Pushes out.old out.new (texts_after (map (text_of m.now) spans.now)) }
{
    for sp in spans {
        push_next(m, *sp, out);
    }
}

// Appends the texts of x in m with commas between them, or `-` if there are none.
pub fn push_texts(m: &[u8], x: Texts, out: &mut Cursor<'_>)
    ensures { Pushes out.old out.new (texts_shown (texts_by m.now x)) }
{
    let spans = x.as_slice();
    if spans.is_empty() {
        out.push_octet(b'-');
        return;
    }
    push_span(m, spans[0], out);
    push_rest(m, &spans[1..], out);
}

// Appends a refusal by document 01's number n.
pub fn push_refused(n: u8, out: &mut Cursor<'_>)
    ensures { Pushes out.old out.new (refused_shown n) }
{
    out.push(b"refused-");
    out.push_number(n as u64);
}

// The octet that two digits stand for.
fn read_pair(a: u8, b: u8) -> Option<u8>
    ensures { result ≡ pair_in a b }
{
    let high = digit(a)?;
    let low = digit(b)?;
    Some(high * 16 + low)
}

// Puts the octets that the pairs of digits in t stand for at the front of dst, up to the first pair that is not two digits or
// doesn't fit. Says whether t is only such pairs and all of them fit.
pub fn read_octets(t: &[u8], dst: &mut [u8]) -> bool
    ensures { ReadsOctets t.now dst.old result dst.new }
{
    let n = t.len() / 2;
    let most = n.min(dst.len());
    for j in 0..most {
        let Some(b) = read_pair(t[j + j], t[j + j + 1]) else {
            return false;
        };
        dst[j] = b;
    }
    n <= most && t.len() % 2 == 0
}

// The length in a text that is not a number up to 65535.
fn large(t: &[u8]) -> Option<u16>
    ensures { result ≡ large_in t.now }
{
    if t.len() < 2 || t[0] == b'0' || !digit_run(t) {
        return None;
    }
    Some(u16::MAX)
}

// The length of a buffer that t names, capped at 65535: nothing that the card writes needs more.
pub fn read_length(t: &[u8]) -> Option<u16>
    ensures { result ≡ length_in t.now }
{
    match read_number(t) {
        Some(n) => Some(n),
        None => large(t),
    }
}
