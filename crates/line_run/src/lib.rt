// Lines answered from a reader to a writer, to the end of the input. What a line is answered with is the caller's.
#![tactic(auto)]

ghost use Rattle.std.specs.Prelude.{◌≤◌, length};
ghost use Rattle.line_run.specs.Run.{SameLengths};

use line_input::gather;
use line_output::{Output, flush, make_room};
use octets::append::Cursor;
use octets::spans::up_to;
use std::io::{Read, Write};

// What answers the lines of an input.
pub trait Answer {
    // Appends the answer to a line. `line` is without its LF, and has as many octets as there was room for. `fits` says whether these
    // are all, and `ended` whether an LF ended the line: the last one may have none. `room` is lent for what an answer needs
    // besides.
    fn answer(
        &mut self,
        line: &[u8],
        fits: bool,
        ended: bool,
        room: &mut [u8],
        out: &mut Cursor<'_>,
    );

    // Whether another line is wanted.
    fn goes_on(&self) -> bool;

    // Appends what is printed at the end of the input.
    fn finish(&self, out: &mut Cursor<'_>);
}

// What is kept from line to line.
#[derive(Clone, Copy)]
struct Progress {
    // The line that is being gathered (`line_input::gather`).
    len: usize,
    over: bool,
    output: Output,
}

// Answers the lines that end in `part`, and gathers the beginning of the next. After each answer at least `least` octets of out are
// free. (`next` is always past i; the `if` shows that the loop ends.)
fn feed<W: Write, E: Write, A: Answer>(
    to: &mut W,
    errors: &mut E,
    answer: &mut A,
    progress: Progress,
    least: usize,
    part: &[u8],
    line: &mut [u8],
    room: &mut [u8],
    out: &mut [u8],
) -> Progress {
    let mut p = progress;
    let mut i = 0;
    while i < part.len() && answer.goes_on() && p.output.taken {
        let g = gather(part, i, line, p.len, p.over);
        let next = g.next;
        if next <= i {
            break;
        }
        i = next;
        p.len = g.len;
        p.over = g.over;
        if g.ended {
            let mut written = Cursor::resume(out, p.output.at);
            answer.answer(up_to(line, g.len), !g.over, true, room, &mut written);
            let at = written.at;
            p = answered(to, errors, at, least, out);
        }
    }
    p
}

// A line has been answered, and `at` octets wait to be written. Makes room for the next line.
fn answered<W: Write, E: Write>(
    to: &mut W,
    errors: &mut E,
    at: usize,
    least: usize,
    out: &[u8],
) -> Progress {
    Progress {
        len: 0,
        over: false,
        output: make_room(to, errors, out, Output { at, taken: true }, least),
    }
}

// Reads once, and answers how many octets came: none at the end of the input. If it can't be read, says so on `errors` and takes
// that for its end.
fn read_part<R: Read, E: Write>(input: &mut R, errors: &mut E, part: &mut [u8]) -> usize
    ensures { result ≤ length part.new }
{
    match input.read(part) {
        Ok(n) => n,
        Err(_) => {
            // Where this fails too, nothing is left to report to.
            let _ = errors.write_all(b"the input can't be read\n");
            0
        }
    }
}

// Answers a line that no LF ended, if there is one, and then what is printed at the end of the input.
fn finish<W: Write, E: Write, A: Answer>(
    to: &mut W,
    errors: &mut E,
    answer: &mut A,
    progress: Progress,
    least: usize,
    line: &[u8],
    room: &mut [u8],
    out: &mut [u8],
) {
    let mut p = progress;
    if 0 < p.len {
        let mut written = Cursor::resume(out, p.output.at);
        answer.answer(up_to(line, p.len), !p.over, false, room, &mut written);
        let at = written.at;
        p = answered(to, errors, at, least, out);
    }
    let mut written = Cursor::resume(out, p.output.at);
    answer.finish(&mut written);
    let at = written.at;
    let taken = p.output.taken;
    flush(to, errors, out, Output { at, taken });
}

// Answers each line of the input on `to`, to its end, until no line is wanted, or until the output can't be written. What fails is said
// on `errors`. At least `least` octets of out are free for each answer, if out is that long. Nothing says that the input ends, so
// the loop counts to a number that no run reaches. No contract can say what a descriptor gives or takes, so this one says only
// that the buffers keep their lengths.
pub fn run<R: Read, W: Write, E: Write, A: Answer>(
    input: &mut R,
    to: &mut W,
    errors: &mut E,
    answer: &mut A,
    least: usize,
    part: &mut [u8],
    line: &mut [u8],
    room: &mut [u8],
    out: &mut [u8],
)
    ensures { SameLengths part.old part.new line.old line.new
        room.old room.new out.old out.new }
{
    let mut p = Progress {
        len: 0,
        over: false,
        output: Output { at: 0, taken: true },
    };
    for _ in 0..u64::MAX {
        if !answer.goes_on() || !p.output.taken {
            break;
        }
        let n = read_part(input, errors, part);
        if n == 0 {
            break;
        }
        p = feed(to, errors, answer, p, least, &part[..n], line, room, out);
        if p.output.taken {
            p.output = flush(to, errors, out, p.output);
        }
    }
    if p.output.taken {
        finish(to, errors, answer, p, least, line, room, out);
    }
}

#[cfg(test)]
mod tests {
    use super::*;
    use std::alloc::Global;
    use std::test::Fail;

    // Answers a line with its octets and how it came, and wants no more after one that begins with `.`.
    #[derive(Clone, Copy)]
    struct Echo {
        going: bool,
    }

    impl Answer for Echo {
        fn answer(
            &mut self,
            line: &[u8],
            fits: bool,
            ended: bool,
            _room: &mut [u8],
            out: &mut Cursor<'_>,
        ) {
            self.going = !line.starts_with(b".");
            out.push(line);
            out.push_octet(if fits { b'+' } else { b'-' });
            out.push_octet(if ended { b'\n' } else { b'?' });
        }

        fn goes_on(&self) -> bool {
            self.going
        }

        fn finish(&self, out: &mut Cursor<'_>) {
            out.push(b"end");
        }
    }

    // Whether `wanted` is printed for an input that is read three octets at a time, with room for lines of four octets.
    fn echoes(alloc: Global, input: &[u8], wanted: &[u8]) -> bool {
        let mut to = Vec::new(alloc);
        let mut errors = Vec::new(alloc);
        let mut echo = Echo { going: true };
        let mut part = [0u8; 3];
        let mut line = [0u8; 4];
        let mut room = [0u8; 1];
        let mut out = [0u8; 16];
        let mut from = input;
        run(
            &mut from,
            &mut to,
            &mut errors,
            &mut echo,
            8,
            &mut part,
            &mut line,
            &mut room,
            &mut out,
        );
        to.as_slice() == wanted && errors.is_empty()
    }

    #[test]
    fn each_line_is_answered(rt: HostRuntime) -> Result<(), Fail> {
        assert!(rt; echoes(rt.alloc(), b"ab\n\nabcd\n", b"ab+\n+\nabcd+\nend"));
        Ok(())
    }

    #[test]
    fn a_line_that_does_not_fit_is_cut(rt: HostRuntime) -> Result<(), Fail> {
        assert!(rt; echoes(rt.alloc(), b"abcde\nf\n", b"abcd-\nf+\nend"));
        Ok(())
    }

    #[test]
    fn a_last_line_may_have_no_end(rt: HostRuntime) -> Result<(), Fail> {
        assert!(rt; echoes(rt.alloc(), b"a\nbc", b"a+\nbc+?end"));
        Ok(())
    }

    #[test]
    fn nothing_is_read_once_no_line_is_wanted(rt: HostRuntime) -> Result<(), Fail> {
        assert!(rt; echoes(rt.alloc(), b".\nb\nc\n", b".+\nend"));
        Ok(())
    }
}
