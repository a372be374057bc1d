// IPv6 addresses as text.
ghost use Rattle.std.specs.Prelude.{◌≡◌, ◌&&◌, eqb, replicate};
ghost use Rattle.octets.specs.Text.{char};
ghost use Rattle.address.specs.Ipv6.{parts_of, full, gapped, read_v6};
ghost use Rattle.address.specs.Kinds.{if_unicast};
ghost use Rattle.address.specs.declared.Address.TheVariants.{V6};
ghost use Rattle.address.specs.Private.{read_group, gap_at, pushed, push_all, side_from};

use crate::{Address, POWER_48, if_unicast};
use octets::hex::digit;
use octets::parts::find_from;

// The halves of an address while it is read.
#[derive(Clone, Copy)]
struct Halves {
    high: u64,
    low: u64,
}

// One side of a "::": how many groups it has, and the halves with them shifted in.
#[derive(Clone, Copy)]
struct Side {
    count: usize,
    halves: Halves,
}

// The group that all of s stands for: one to four digits.
fn read_group(s: &[u8]) -> Option<u16>
    ensures { result ≡ read_group s.now }
{
    if s.len() < 1 || 4 < s.len() {
        return None;
    }
    let mut n: u16 = 0;
    for b in s {
        let d = digit(*b)?;
        n = n * 16 + d as u16;
    }
    Some(n)
}

// Both are colons.
fn both_colons(a: u8, b: u8) -> bool
    ensures { result ≡ (eqb a (char ":") && eqb b (char ":")) }
{
    a == b':' && b == b':'
}

// Where the first "::" of s starts.
fn find_gap(s: &[u8]) -> Option<usize>
    ensures { result ≡ gap_at s.now }
{
    for i in 1..s.len() {
        if both_colons(s[i - 1], s[i]) {
            return Some(i - 1);
        }
    }
    None
}

// The halves with a group shifted in.
fn push(h: Halves, g: u16) -> Halves
    ensures { result ≡ pushed h g }
{
    Halves {
        high: h.high % POWER_48 * 65536 + h.low / POWER_48 % 65536,
        low: h.low % POWER_48 * 65536 + g as u64,
    }
}

// The halves with n groups of zero shifted in.
fn push_zeros(h: Halves, n: usize) -> Halves
    ensures { result ≡ push_all h (replicate n 0) }
{
    let mut a = h;
    for _k in 0..n {
        a = push(a, 0);
    }
    a
}

// Reads the groups of one side, and shifts them into h.
fn read_side(s: &[u8], h: Halves) -> Option<Side>
    ensures { result ≡ side_from 0 h (parts_of s.now) }
{
    if s.len() < 1 {
        return Some(Side {
            count: 0,
            halves: h,
        });
    }
    let mut halves = h;
    let mut count: usize = 0;
    let mut i = 0;
    loop {
        let e = find_from(s, b':', i);
        let g = read_group(&s[i..e])?;
        halves = push(halves, g);
        count += 1;
        if s.len() <= e {
            return Some(Side { count, halves });
        }
        i = e + 1;
    }
}

// The address of these halves, if it is unicast.
fn address_of(h: Halves) -> Option<Address>
    ensures { result ≡ if_unicast (V6 h.high h.low) }
{
    let high = h.high;
    let low = h.low;
    if_unicast(Address::V6 { high, low })
}

// Reads eight groups.
fn read_full(s: &[u8]) -> Option<Address>
    ensures { result ≡ full (parts_of s.now) }
{
    let side = read_side(s, Halves { high: 0, low: 0 })?;
    if side.count != 8 {
        return None;
    }
    address_of(side.halves)
}

// Reads the groups before and after a "::". Those after it are read twice: to count them, and then to shift them in after the
// zeros.
fn read_gapped(left: &[u8], right: &[u8]) -> Option<Address>
    ensures { result ≡ gapped (parts_of left.now) (parts_of right.now) }
{
    let before = read_side(left, Halves { high: 0, low: 0 })?;
    let after = read_side(right, Halves { high: 0, low: 0 })?;
    let l = before.count;
    let r = after.count;
    if 7 < l || 7 - l < r {
        return None;
    }
    let filled = push_zeros(before.halves, 8 - (l + r));
    let all = read_side(right, filled)?;
    address_of(all.halves)
}

// The address that all of s stands for.
pub fn read_ipv6(s: &[u8]) -> Option<Address>
    ensures { result ≡ read_v6 s.now }
{
    match find_gap(s) {
        Some(gap) => read_gapped(&s[0..gap], &s[gap + 2..]),
        None => read_full(s),
    }
}
