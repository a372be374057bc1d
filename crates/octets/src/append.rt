// Appending to a buffer. What does not fit is left out.
ghost use Rattle.std.specs.Prelude.{◌≡◌, [], ◌∷◌, ◌++◌, ◌+◌, ◌≤◌, length};
ghost use Rattle.std.proofs.Math.Option.{some};
ghost use Rattle.octets.specs.Append.{Appends, Pushes, number_text};
ghost use Rattle.octets.specs.Private.{Tail};
ghost use Rattle.octets.specs.Puts.{Puts};

use crate::Refusal;

// A lent buffer that is being written: the octets of `out` up to `at` are written, and others follow them.
#[derive(Drop)]
pub struct Cursor<'a> {
    pub out: &'a mut [u8],
    pub at: usize,
}

impl<'a> Cursor<'a> {
    // A buffer in which nothing is written.
    pub fn new(out: &'a mut [u8]) -> Cursor<'a>
        ensures lent { result.out.ghost_name ≡ out.entry.ghost_name }
        ensures holds { result.out.now ≡ out.old }
        ensures nothing { result.at ≡ 0 }
    {
        Cursor { out, at: 0 }
    }

    // A buffer in which the octets up to `at` are written.
    pub fn resume(out: &'a mut [u8], at: usize) -> Cursor<'a>
        ensures lent { result.out.ghost_name ≡ out.entry.ghost_name }
        ensures holds { result.out.now ≡ out.old }
        ensures written { result.at ≡ at }
    {
        Cursor { out, at }
    }

    // Appends src, as far as there is room.
    pub fn push(&mut self, src: &[u8])
        ensures { Pushes self.old self.new src.now }
    {
        self.at = push(src, self.out, self.at);
    }

    // Appends one octet.
    pub fn push_octet(&mut self, b: u8)
        ensures { Pushes self.old self.new (b ∷ []) }
    {
        self.at = push_octet(b, self.out, self.at);
    }

    // Appends n as decimal text.
    pub fn push_number(&mut self, n: u64)
        ensures { Pushes self.old self.new (number_text n) }
    {
        self.at = push_number(n, self.out, self.at);
    }

    // Appends n as decimal text, and the octet b.
    pub fn push_number_then(&mut self, n: u64, b: u8)
        ensures { Pushes self.old self.new (number_text n ++ (b ∷ [])) }
    {
        self.at = push_number_then(n, b, self.out, self.at);
    }
}

// Appends src to the `at` octets in out.
pub fn push(src: &[u8], out: &mut [u8], at: usize) -> usize
    ensures { Appends out.old at src.now result out.new }
{
    if out.len() <= at {
        return at;
    }
    let n = src.len().min(out.len() - at);
    // `copy_from_slice` would need C's `memmove`, which the libraries for C do without.
    for j in 0..n {
        out[at + j] = src[j];
    }
    at + n
}

// Appends one octet.
pub fn push_octet(b: u8, out: &mut [u8], at: usize) -> usize
    ensures { Appends out.old at (b ∷ []) result out.new }
{
    if at < out.len() {
        out[at] = b;
        return at + 1;
    }
    at
}

// Puts n's digits at the end of d, last digit first. The answer is where they start.
fn put_digits(n: u64, d: &mut [u8]) -> usize
    requires { length d.old ≡ 20 }
    ensures { Tail d.new result (number_text n) }
{
    let mut m = n;
    for k in (1..20).rev() {
        d[k] = b'0' + (m % 10) as u8;
        m /= 10;
        if m == 0 {
            return k;
        }
    }
    d[0] = b'0' + (m % 10) as u8;
    0
}

// Appends n as decimal text.
pub fn push_number(n: u64, out: &mut [u8], at: usize) -> usize
    ensures { Appends out.old at (number_text n) result out.new }
{
    let mut d = [0u8; 20];
    let k = put_digits(n, &mut d);
    push(&d[k..20], out, at)
}

// Appends n as decimal text, and the octet b.
pub fn push_number_then(n: u64, b: u8, out: &mut [u8], at: usize) -> usize
    ensures { Appends out.old at (number_text n ++ (b ∷ [])) result out.new }
{
    let k = push_number(n, out, at);
    push_octet(b, out, k)
}

// Writes src at the front of out, if there is room for all of it.
pub fn put_front(src: &[u8], out: &mut [u8]) -> Result<usize, Refusal>
    ensures { Puts (some src.now) out.old result out.new }
{
    if out.len() < src.len() {
        return Err(Refusal::BufferTooShort);
    }
    push(src, out, 0);
    Ok(src.len())
}
