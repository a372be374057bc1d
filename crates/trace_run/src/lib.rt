// Runs a trace over one reader and one writer: lines in, lines out, to the end of the input.
#![tactic(auto)]

ghost use Rattle.line_run.specs.Run.{SameLengths};

use line_run::Answer;
use octets::append::Cursor;
use std::io::{Read, Write};
use trace::Session;

// The most octets of a line of a detailed trace, without its LF: the length of a buffer may come before the event.
pub const MOST_DETAIL: usize = 4096;

// Room that is kept for what one line prints, so that nothing is cut. The line of an event has fewer than 80 octets; a detailed
// trace adds at most 894 digits of a message and fewer than 700 octets of a bearer.
const LINE_ROOM: usize = 8192;

// The session that answers the lines of a trace.
#[derive(Clone, Copy)]
struct Tracer {
    session: Session,
    detailed: bool,
}

impl Answer for Tracer {
    // A line that no LF ended is not whole, and neither is one that is too long.
    fn answer(
        &mut self,
        line: &[u8],
        fits: bool,
        ended: bool,
        room: &mut [u8],
        out: &mut Cursor<'_>,
    ) {
        let whole = fits && ended;
        self.session = self.session.step(self.detailed, line, whole, room, out);
    }

    // Once the configuration is refused, nothing more is printed.
    fn goes_on(&self) -> bool {
        !matches!(self.session, Session::Stopped)
    }

    fn finish(&self, out: &mut Cursor<'_>) {
        self.session.finish(out);
    }
}

// Answers each line of the input on `to`, to its end or until the output can't be written. What fails is said on `errors`. The
// contract is that of `line_run::run`, which says why it says no more.
pub fn run<R: Read, W: Write, E: Write>(
    input: &mut R,
    to: &mut W,
    errors: &mut E,
    detailed: bool,
    part: &mut [u8],
    line: &mut [u8],
    room: &mut [u8],
    out: &mut [u8],
)
    ensures { SameLengths part.old part.new line.old line.new
        room.old room.new out.old out.new }
{
    let mut tracer = Tracer {
        session: Session::new(),
        detailed,
    };
    line_run::run(
        input,
        to,
        errors,
        &mut tracer,
        LINE_ROOM,
        part,
        line,
        room,
        out,
    );
}

#[cfg(test)]
mod tests {
    use super::*;
    use std::io;
    use std::test::Fail;

    // A reader that can't be read.
    #[derive(Drop)]
    struct Unread {}

    impl Read for Unread {
        fn read(&mut self, _buf: &mut [u8]) -> io::Result<usize> {
            Err(io::Error::from(io::ErrorKind::Other))
        }
    }

    // A writer that takes nothing.
    #[derive(Drop)]
    struct Full {}

    impl Write for Full {
        fn write(&mut self, _buf: &[u8]) -> io::Result<usize> {
            Ok(0)
        }

        fn flush(&mut self) -> io::Result<()> {
            Ok(())
        }
    }

    // Runs a trace with small buffers.
    fn run_small<R: Read, W: Write, E: Write>(input: &mut R, to: &mut W, errors: &mut E) {
        let mut part = [0u8; 3];
        let mut line = [0u8; 64];
        let mut room = [0u8; 64];
        let mut out = [0u8; 9000];
        run(
            input, to, errors, false, &mut part, &mut line, &mut room, &mut out,
        );
    }

    #[test]
    fn an_input_that_fails_has_ended(rt: HostRuntime) -> Result<(), Fail> {
        let mut to = Vec::new(rt.alloc());
        let mut errors = Vec::new(rt.alloc());
        run_small(&mut Unread {}, &mut to, &mut errors);
        assert_eq!(rt; errors.as_slice(), b"the input can't be read\n".as_slice());
        let mut same = Vec::new(rt.alloc());
        errors.clear();
        run_small(&mut b"".as_slice(), &mut same, &mut errors);
        assert_eq!(rt; to.as_slice(), same.as_slice());
        assert_eq!(rt; errors.len(), 0);
        Ok(())
    }

    #[test]
    fn output_that_is_not_taken_is_reported(rt: HostRuntime) -> Result<(), Fail> {
        let mut errors = Vec::new(rt.alloc());
        run_small(&mut b"G\n".as_slice(), &mut Full {}, &mut errors);
        assert_eq!(rt; errors.as_slice(), b"the output was not taken\n".as_slice());
        Ok(())
    }
}
