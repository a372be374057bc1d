// The selected codecs of a codec list: how many octets they have, and those octets appended to a buffer.
ghost use Rattle.std.specs.Prelude.{◌≡◌, cond, ◌≤◌, length, eqb};
ghost use Rattle.octets.specs.Append.{Appends};
ghost use Rattle.bat.specs.Values.{meant};
ghost use Rattle.bat_write.specs.Private.{element_length, codec_if, selected_anew};

use crate::element::push_element;
use bat::framing::{contents, first_element, octet_at, whole_length};
use octets::spans::after;

// How many octets a codec with this flag and n octets of contents adds.
fn length_if(flag: u8, n: usize) -> usize
    requires { n ≤ 2046 }
    ensures { result ≡ cond (eqb flag 1) (element_length n) 0 }
{
    if flag == 1 {
        return crate::element::whole_length(n);
    }
    0
}

// Appends the codec with these contents, if it is selected.
fn push_if(flag: u8, compatibility: u8, contents: &[u8], out: &mut [u8], at: usize) -> usize
    requires { length contents.now ≤ 2046 }
    ensures { Appends out.old at (codec_if flag (meant compatibility) contents.now) result out.new }
{
    if flag == 1 {
        return push_element(5, compatibility, contents, out, at);
    }
    at
}

// How many octets the selected elements of s have as single codecs.
pub(crate) fn selected_length(s: &[u8], selection: &[u8]) -> usize
    ensures { result ≡ length (selected_anew selection.now s.now) }
{
    let mut rest = s;
    let mut flags = selection;
    let mut n = 0;
    while let Ok(Some(f)) = first_element(rest) {
        n += length_if(octet_at(flags, 0), contents(rest, f).len());
        rest = after(rest, whole_length(f));
        flags = after(flags, 1);
    }
    n
}

// Appends each selected element of s as a single codec, with the shortest length and one compatibility octet.
pub(crate) fn push_selected(s: &[u8], selection: &[u8], out: &mut [u8], at: usize) -> usize
    ensures { Appends out.old at (selected_anew selection.now s.now) result out.new }
{
    let mut rest = s;
    let mut flags = selection;
    let mut k = at;
    while let Ok(Some(f)) = first_element(rest) {
        k = push_if(
            octet_at(flags, 0),
            f.compatibility,
            contents(rest, f),
            out,
            k,
        );
        rest = after(rest, whole_length(f));
        flags = after(flags, 1);
    }
    k
}
