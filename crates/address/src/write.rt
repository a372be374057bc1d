// Addresses appended to a buffer as text.
ghost use Rattle.std.specs.Prelude.{◌≡◌, ◌∷◌, ◌++◌, ◌<◌};
ghost use Rattle.octets.specs.Text.{ascii, char};
ghost use Rattle.octets.specs.Append.{Pushes, number_text};
ghost use Rattle.address.specs.Canonical.{low_digit, group_text, each_after, joined, zeros, better, longest_run, shortened, ipv4_text, ipv6_text, address_text};
ghost use Rattle.address.specs.Private.{HexWidth, Longest};

use crate::{Address, POWER_24, POWER_32, POWER_48};
use octets::append::Cursor;

// A run of groups that are zero.
#[derive(Clone, Copy)]
struct Run {
    start: usize,
    len: usize,
}

// The digit that stands for d.
fn hex_digit(d: u16) -> u8
    requires { d < 16 }
    ensures { result ≡ low_digit d }
{
    if d < 10 {
        return b'0' + d as u8;
    }
    b'a' + (d - 10) as u8
}

// How many digits g has.
fn hex_width(g: u16) -> usize
    ensures { HexWidth g result }
{
    if g < 16 {
        return 1;
    }
    if g < 256 {
        return 2;
    }
    if g < 4096 {
        return 3;
    }
    4
}

// Appends a group.
fn push_group(g: u16, out: &mut Cursor<'_>)
    ensures { Pushes out.old out.new (group_text g) }
{
    let x = g / 16;
    let y = x / 16;
    let z = y / 16;
    let digits = [
        hex_digit(z % 16),
        hex_digit(y % 16),
        hex_digit(x % 16),
        hex_digit(g % 16),
    ];
    let w = hex_width(g);
    out.push(&digits[4 - w..4]);
}

// Appends a colon and a group.
fn push_colon_group(g: u16, out: &mut Cursor<'_>)
    ensures { Pushes out.old out.new (char ":" ∷ group_text g) }
{
    out.push_octet(b':');
    push_group(g, out);
}

// Appends the groups, each after a colon.
fn push_each(gs: &[u16], out: &mut Cursor<'_>)
    ensures { Pushes out.old out.new (each_after (char ":") group_text gs.now) }
{
    for g in gs {
        push_colon_group(*g, out);
    }
}

// Appends the groups with colons between them.
fn push_groups(gs: &[u16], out: &mut Cursor<'_>)
    ensures { Pushes out.old out.new (joined (char ":") group_text gs.now) }
{
    if gs.len() < 1 {
        return;
    }
    push_group(gs[0], out);
    push_each(&gs[1..], out);
}

// How many zeros gs starts with.
#[tactic(auto, unfolding(crate::specs::Canonical::zeros))]
fn zeros(gs: &[u16]) -> usize
    ensures { result ≡ zeros gs.now }
{
    gs.iter().take_while(|g| **g == 0).count()
}

// The longer of r and the run of z zeros at i; r if they are equal.
fn better_run(r: Run, i: usize, z: usize) -> Run
    ensures { result ≡ better r i z }
{
    let n = r.len;
    if n < z {
        return Run { start: i, len: z };
    }
    r
}

// The longest run of zeros, the first of several as long.
fn longest(gs: &[u16]) -> Run
    ensures { Longest gs.now result }
{
    let mut r = Run { start: 0, len: 0 };
    for i in 0..gs.len() {
        r = better_run(r, i, zeros(&gs[i..]));
    }
    r
}

// Appends "::" and the groups after it.
fn push_gap(gs: &[u16], out: &mut Cursor<'_>)
    ensures { Pushes out.old out.new (ascii "::" ++ joined (char ":") group_text gs.now) }
{
    out.push(b"::");
    push_groups(gs, out);
}

// Appends the groups with "::" for the longest run of zeros.
fn push_shortened(gs: &[u16], out: &mut Cursor<'_>)
    ensures { Pushes out.old out.new (shortened gs.now (longest_run gs.now)) }
{
    let run = longest(gs);
    let start = run.start;
    let len = run.len;
    if len < 2 {
        push_groups(gs, out);
        return;
    }
    let end = start + len;
    push_groups(&gs[0..start], out);
    push_gap(&gs[end..], out);
}

// Appends the address of these halves.
fn push_ipv6(high: u64, low: u64, out: &mut Cursor<'_>)
    ensures { Pushes out.old out.new (ipv6_text high low) }
{
    let gs: [u16; 8] = [
        (high / POWER_48 % 65536) as u16,
        (high / POWER_32 % 65536) as u16,
        (high / 65536 % 65536) as u16,
        (high % 65536) as u16,
        (low / POWER_48 % 65536) as u16,
        (low / POWER_32 % 65536) as u16,
        (low / 65536 % 65536) as u16,
        (low % 65536) as u16,
    ];
    push_shortened(&gs, out);
}

// Appends two numbers with a dot between them.
fn push_two(a: u8, b: u8, out: &mut Cursor<'_>)
    ensures { Pushes out.old out.new (number_text a ++ (char "." ∷ number_text b)) }
{
    out.push_number_then(a as u64, b'.');
    out.push_number(b as u64);
}

// Appends a dot and two numbers more.
fn push_two_more(a: u8, b: u8, out: &mut Cursor<'_>)
    ensures { Pushes out.old out.new (char "." ∷ (number_text a ++ (char "." ∷ number_text b))) }
{
    out.push_octet(b'.');
    push_two(a, b, out);
}

// Appends the IPv4 address n.
fn push_ipv4(n: u32, out: &mut Cursor<'_>)
    ensures { Pushes out.old out.new (ipv4_text n) }
{
    let a = (n / POWER_24 % 256) as u8;
    let b = (n / 65536 % 256) as u8;
    let c = (n / 256 % 256) as u8;
    let d = (n % 256) as u8;
    push_two(a, b, out);
    push_two_more(c, d, out);
}

// Appends the address.
pub fn push_address(a: Address, out: &mut Cursor<'_>)
    ensures { Pushes out.old out.new (address_text a) }
{
    match a {
        Address::V4(n) => push_ipv4(n, out),
        Address::V6 { high, low } => push_ipv6(high, low, out),
    }
}
