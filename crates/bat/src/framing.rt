// The front of application data: its first element, and how many it has.
ghost use Rattle.std.specs.Prelude.{◌≡◌};
ghost use Rattle.std.proofs.Math.Option.{some};
ghost use Rattle.bat.specs.Framing.{octet, unmarked, length_of, front, elements, cut};
ghost use Rattle.bat.specs.FramingMeaning.{size_in, front_in, element_in, HeaderLength, WholeLength, count_of};
ghost use Rattle.bat.specs.Private.{count_in};

use crate::{Frame, MOST_OCTETS, Size, Unframed};
use octets::{Refusal, Span};

// x in sixteen bits.
fn wide(x: u8) -> u16
    ensures { result ≡ x }
{
    x as u16
}

// The length at the front of s.
pub fn read_size(s: &[u8]) -> Option<Size>
    ensures { size_in s.now result ≡ some (length_of s.now) }
{
    if s.len() < 1 {
        return None;
    }
    let a = s[0];
    if 128 <= a {
        return Some(Size {
            length: wide(a % 128),
            octets: 1,
        });
    }
    if s.len() < 2 {
        return None;
    }
    let b = s[1];
    if b < 128 {
        return None;
    }
    Some(Size {
        length: wide(a % 128) + wide(b % 16) * 128,
        octets: 2,
    })
}

// How many octets of s are before the first with bit 8 set.
pub fn count_unmarked(s: &[u8]) -> usize
    ensures { result ≡ unmarked s.now }
{
    s.iter().take_while(|b| **b < 128).count()
}

// Octet k of s, from 0; 0 if there is none.
pub fn octet_at(s: &[u8], k: usize) -> u8
    ensures { result ≡ octet k s.now }
{
    s.get(k).copied().unwrap_or(0)
}

// The element at the front of s, if s is not empty.
pub fn first_element(s: &[u8]) -> Result<Option<Frame>, Unframed>
    ensures { front_in s.now result ≡ some (front s.now) }
{
    if s.len() < 1 {
        return Ok(None);
    }
    let t = octets::spans::after(s, 1);
    let Some(size) = read_size(t) else {
        return Err(Unframed);
    };
    let m = size.length as usize;
    if m == 0 {
        return Err(Unframed);
    }
    let u = octets::spans::after(t, size.octets as usize);
    if u.len() < m {
        return Err(Unframed);
    }
    let c = octets::spans::up_to(u, m);
    let x = count_unmarked(c);
    if m <= x {
        return Err(Unframed);
    }
    Ok(Some(Frame {
        identifier: s[0],
        size: size.octets,
        compatibility: octet_at(c, 0),
        extension: x as u16,
        length: (m - 1 - x) as u16,
    }))
}

// How many octets of an element are before its contents.
pub fn header_length(f: Frame) -> usize
    ensures { HeaderLength f result }
{
    2 + f.size as usize + f.extension as usize
}

// How many octets an element has.
pub fn whole_length(f: Frame) -> usize
    ensures { WholeLength f result }
{
    header_length(f) + f.length as usize
}

// The contents of an element at the front of s.
pub fn contents(s: &[u8], f: Frame) -> &[u8]
    ensures { result.now ≡ (element_in s.now f).contents }
{
    let at = header_length(f);
    let len = f.length as usize;
    octets::spans::text(s, Span { at: at, len: len })
}

// How many elements the data has; refused if it can't be framed.
fn count_elements(data: &[u8]) -> Result<usize, Refusal>
    ensures { result ≡ count_in (elements «data».now) }
{
    let mut rest = data;
    let mut n = 0;
    while let Some(f) = first_element(rest)? {
        rest = octets::spans::after(rest, whole_length(f));
        n += 1;
    }
    Ok(n)
}

// How many elements the data has. Refused if it is too long, otherwise if it can't be framed, otherwise if the table is
// too small.
pub fn count(data: &[u8], entries: usize) -> Result<usize, Refusal>
    ensures { result ≡ count_of (cut entries «data».now) }
{
    if MOST_OCTETS < data.len() {
        return Err(Refusal::DataTooLong);
    }
    let n = count_elements(data)?;
    if entries < n {
        return Err(Refusal::TableTooShort);
    }
    Ok(n)
}
