// An element appended to a buffer.
ghost use Rattle.std.specs.Prelude.{◌≡◌, ◌∷◌, ◌+◌, ◌≤◌, length};
ghost use Rattle.octets.specs.Append.{Appends};
ghost use Rattle.bat.specs.Values.{meant};
ghost use Rattle.bat.specs.Writing.{size_text, element_text};
ghost use Rattle.bat_write.specs.Private.{element_length};

use octets::append::{push, push_octet};

// How many octets an element with n octets of contents has.
pub(crate) fn whole_length(n: usize) -> usize
    requires { n ≤ 2046 }
    ensures { result ≡ element_length n }
{
    if n < 127 {
        return n + 3;
    }
    n + 4
}

// Appends the length n.
fn push_size(n: usize, out: &mut [u8], at: usize) -> usize
    requires { n ≤ 2047 }
    ensures { Appends out.old at (size_text n) result out.new }
{
    if n < 128 {
        return push_octet((128 + n) as u8, out, at);
    }
    let k = push_octet((n % 128) as u8, out, at);
    push_octet((128 + n / 128) as u8, out, k)
}

// Appends an identifier and the length n.
pub(crate) fn push_head(identifier: u8, n: usize, out: &mut [u8], at: usize) -> usize
    requires { n ≤ 2047 }
    ensures { Appends out.old at (identifier ∷ size_text n) result out.new }
{
    let k = push_octet(identifier, out, at);
    push_size(n, out, k)
}

// Appends what the length counts: one compatibility octet, with bit 8 set, and the contents.
fn push_counted(compatibility: u8, contents: &[u8], out: &mut [u8], at: usize) -> usize
    ensures { Appends out.old at ((128 + meant compatibility) ∷ contents.now) result out.new }
{
    let k = push_octet(128 + compatibility % 128, out, at);
    push(contents, out, k)
}

// Appends the element with these contents.
pub(crate) fn push_element(
    identifier: u8,
    compatibility: u8,
    contents: &[u8],
    out: &mut [u8],
    at: usize,
) -> usize
    requires { length contents.now ≤ 2046 }
    ensures { Appends out.old at (element_text identifier (meant compatibility) contents.now) result out.new }
{
    let k = push_head(identifier, contents.len() + 1, out, at);
    push_counted(compatibility, contents, out, k)
}
