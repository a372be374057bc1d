// Output that waits at the front of the caller's buffer until it is written.
#![tactic(auto)]

ghost use Rattle.std.specs.Prelude.{◌≡◌, ◌-◌, ◌≤◌, IsTrue, length, take};
ghost use Rattle.line_output.specs.Written.{Moves};

use std::io::Write;

// What a program has to print.
#[derive(Clone, Copy)]
pub struct Output {
    // How many octets wait.
    pub at: usize,
    // Whether every write so far has succeeded.
    pub taken: bool,
}

// Writes octets to `to`; a failure is reported on `errors`.
fn write<W: Write, E: Write>(to: &mut W, errors: &mut E, octets: &[u8]) -> bool
    ensures { IsTrue result → Moves (W.contents to.old) (W.contents to.new) octets.now (take 0 octets.now) }
{
    if to.write_all(octets).is_ok() {
        return true;
    }
    // Where this fails too, nothing is left to report to.
    let _ = errors.write_all(b"the output was not taken\n");
    false
}

// Writes what waits.
pub fn flush<W: Write, E: Write>(to: &mut W, errors: &mut E, out: &[u8], output: Output) -> Output
    ensures emptied { result.at ≡ 0 }
    ensures written { IsTrue result.taken → Moves (W.contents to.old) (W.contents to.new)
        (take output.at out.now) (take result.at out.now) }
{
    let at = output.at;
    if at <= out.len() {
        return Output {
            at: 0,
            taken: write(to, errors, &out[0..at]),
        };
    }
    Output {
        at: 0,
        taken: false,
    }
}

// Writes what waits if fewer than `least` octets are free after it.
pub fn make_room<W: Write, E: Write>(
    to: &mut W,
    errors: &mut E,
    out: &[u8],
    output: Output,
    least: usize,
) -> Output
    ensures room { result.at ≤ length out.now - least }
    ensures written { IsTrue result.taken → Moves (W.contents to.old) (W.contents to.new)
        (take output.at out.now) (take result.at out.now) }
{
    let at = output.at;
    if out.len() < least {
        return flush(to, errors, out, output);
    }
    if out.len() - least < at {
        return flush(to, errors, out, output);
    }
    output
}

#[cfg(test)]
mod tests {
    use super::*;
    use std::io;
    use std::test::Fail;

    // A writer that takes nothing.
    #[derive(Drop)]
    struct Full {}

    impl Write for Full {
        fn write(&mut self, _buf: &[u8]) -> io::Result<usize> {
            Ok(0)
        }

        fn flush(&mut self) -> io::Result<()> {
            Ok(())
        }
    }

    #[test]
    fn what_waits_is_written(rt: HostRuntime) -> Result<(), Fail> {
        let mut to = Vec::new(rt.alloc());
        let mut errors = Vec::new(rt.alloc());
        let waiting = Output { at: 3, taken: true };
        let output = flush(&mut to, &mut errors, b"abcd", waiting);
        assert!(rt; output.taken);
        assert_eq!(rt; to.as_slice(), b"abc".as_slice());
        assert_eq!(rt; errors.len(), 0);
        Ok(())
    }

    #[test]
    fn room_is_made_only_where_it_lacks(rt: HostRuntime) -> Result<(), Fail> {
        let mut to = Vec::new(rt.alloc());
        let mut errors = Vec::new(rt.alloc());
        let waiting = Output { at: 3, taken: true };
        let enough = make_room(&mut to, &mut errors, b"abcd", waiting, 1);
        assert_eq!(rt; enough.at, 3);
        assert_eq!(rt; to.len(), 0);
        let lacking = make_room(&mut to, &mut errors, b"abcd", waiting, 2);
        assert_eq!(rt; lacking.at, 0);
        assert_eq!(rt; to.as_slice(), b"abc".as_slice());
        Ok(())
    }

    #[test]
    fn output_that_is_not_taken_is_reported(rt: HostRuntime) -> Result<(), Fail> {
        let mut errors = Vec::new(rt.alloc());
        let waiting = Output { at: 3, taken: true };
        let output = flush(&mut Full {}, &mut errors, b"abcd", waiting);
        assert!(rt; !output.taken);
        assert_eq!(rt; errors.as_slice(), b"the output was not taken\n".as_slice());
        Ok(())
    }
}
