// Spans of a text. Every span is allowed: one that goes past the end of the text stands for the part inside it.
ghost use Rattle.std.specs.Prelude.{◌≡◌, take, drop};
ghost use Rattle.octets.specs.Spans.{text_of, inside};

use crate::Span;

// The text that sp stands for in m.
pub fn text(m: &[u8], sp: Span) -> &[u8]
    ensures { result.now ≡ text_of m.now sp }
{
    up_to(after(m, sp.at), sp.len)
}

// What follows the first n octets of s.
pub fn after(s: &[u8], n: usize) -> &[u8]
    ensures { result.now ≡ drop n s.now }
{
    &s[n.min(s.len())..]
}

// The first n octets of s, or all of them if it has fewer.
pub fn up_to(s: &[u8], n: usize) -> &[u8]
    ensures { result.now ≡ take n s.now }
{
    &s[..n.min(s.len())]
}

// sp lies inside m.
pub fn is_inside(m: &[u8], sp: Span) -> bool
    ensures { result ≡ inside m.now sp }
{
    sp.at <= m.len() && sp.len <= m.len() - sp.at
}
