// Tokens of a text and what comes after its first blank, and parts of parts of a text as spans.
#![tactic(auto)]

ghost use Rattle.std.specs.Prelude.{◌≡◌, ltb, drop, IfSome};
ghost use Rattle.octets.specs.Spans.{text_of};
ghost use Rattle.octets.specs.Chain.{when};
ghost use Rattle.octets.specs.Split.{split_on};
ghost use Rattle.octets.specs.Text.{blank};
ghost use Rattle.texts.specs.Tokens.{after_blank, after_token, tokens_of};
ghost use Rattle.texts.specs.Meaning.{cut_in, places_from};

use octets::Span;
use octets::parts::find_from;
use octets::spans::after;

// The span in m of what p stands for in the text of sp.
pub fn inner(m: &[u8], sp: Span, p: Span) -> Span
    ensures { text_of m.now result ≡ text_of (text_of m.now sp) p }
{
    if m.len() < sp.at || m.len() - sp.at < p.at || sp.len < p.at {
        return Span { at: 0, len: 0 };
    }
    Span {
        at: sp.at + p.at,
        len: p.len.min(sp.len - p.at),
    }
}

// The span in m of the text of sp without its first n octets.
pub fn skip(m: &[u8], sp: Span, n: usize) -> Span
    ensures { text_of m.now result ≡ drop n (text_of m.now sp) }
{
    inner(m, sp, Span { at: n, len: sp.len })
}

// The span of what comes after the first blank of s.
pub fn after_blank(s: &[u8]) -> Span
    ensures { text_of s.now result ≡ after_blank s.now }
{
    let e = find_from(s, b' ', 0);
    if s.len() <= e {
        return Span { at: 0, len: 0 };
    }
    Span {
        at: e + 1,
        len: s.len() - (e + 1),
    }
}

// What comes after the first token of s and its blank: nothing if that token is empty or the last.
pub fn after_token(s: &[u8]) -> &[u8]
    ensures { result.now ≡ after_token s.now }
{
    let e = find_from(s, b' ', 0);
    if e < 1 {
        return &s[..0];
    }
    after(s, e + 1)
}

// The places of the N tokens of s, if it has so many; none for no tokens.
pub fn cut<const N: usize>(s: &[u8]) -> Option<[Span; N]>
    ensures tokens { cut_in s.now result ≡ when (ltb 0 N) (tokens_of N s.now) }
    ensures places { IfSome result (λ xs. xs ≡ places_from 0 (split_on blank s.now)) }
{
    if N == 0 {
        return None;
    }
    let mut spans = [Span { at: 0, len: 0 }; N];
    let mut from = 0;
    for i in 0..N {
        let e = find_from(s, b' ', from);
        if e <= from {
            return None;
        }
        // Only the last token ends where s does.
        let is_last = i + 1 == N;
        let ends = s.len() <= e;
        if is_last != ends {
            return None;
        }
        spans[i] = Span {
            at: from,
            len: e - from,
        };
        from = e + 1;
    }
    Some(spans)
}
