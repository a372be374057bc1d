// Runs the traces in the files that are named, and prints each file's name before its trace. The words `plain` and `detailed` say how
// the files after them are printed, plain at first. The files after `octets` are read one octet at a time.
#![tactic(auto)]

ghost use Rattle.std.specs.Prelude.{◌≤◌, IfSome, length};

use octets::spans::up_to;
use std::env::FillError;
use std::fs;
use std::io::{Read, Write};
use std::rt::{Env, Files};
use trace_read::USUAL_ROOM;
use trace_run::MOST_DETAIL;

// How many octets are read at once, and how many may wait to be written.
const BUFFER: usize = 65536;

// How files are printed and read.
#[derive(Clone, Copy)]
struct Manner {
    detailed: bool,
    slow: bool,
}

// What `trace_run::run` is lent.
#[derive(Drop)]
struct Buffers<'a> {
    part: &'a mut [u8],
    line: &'a mut [u8],
    room: &'a mut [u8],
    out: &'a mut [u8],
}

// One trace. Not inlined, so that no more of the stack is used before a trace runs.
#[inline(never)]
fn run_trace<R: Read, W: Write, E: Write>(
    input: &mut R,
    to: &mut W,
    errors: &mut E,
    manner: Manner,
    buffers: &mut Buffers<'_>,
) {
    let at_once = if manner.slow { 1 } else { BUFFER };
    let n = at_once.min(buffers.part.len());
    trace_run::run(
        input,
        to,
        errors,
        manner.detailed,
        &mut buffers.part[..n],
        buffers.line,
        buffers.room,
        buffers.out,
    );
}

// The file of that name, if it can be opened. std takes a name as text, so a name that is not UTF-8 is no file's.
fn open<F: Files>(files: &F, name: &[u8]) -> Option<F::File> {
    let text = str::from_utf8(name).ok()?;
    fs::open(files, text).ok()
}

// Prints the name of a file, and opens the file. Whether standard output takes these lines is not asked: the trace's own lines show
// it. Not inlined, so that what opening needs of the stack is free again when the trace runs.
#[inline(never)]
fn begin_file<F: Files, W: Write>(files: &F, to: &mut W, name: &[u8]) -> Option<F::File> {
    let _ = to.write_all(b"== ");
    let _ = to.write_all(name);
    let _ = to.write_all(b"\n");
    let file = open(files, name);
    if file.is_none() {
        let _ = to.write_all(b"no file\n");
    }
    file
}

// The trace in the file whose name is in the first n octets of `line`.
fn run_file<F: Files, W: Write, E: Write>(
    files: &F,
    to: &mut W,
    errors: &mut E,
    n: usize,
    manner: Manner,
    buffers: &mut Buffers<'_>,
) {
    if let Some(mut file) = begin_file(files, to, up_to(buffers.line, n)) {
        run_trace(&mut file, to, errors, manner, buffers);
    }
}

// The word in the first n octets of `line`: it says how files are printed or read, or it is the name of a file.
fn run_word<F: Files, W: Write, E: Write>(
    files: &F,
    to: &mut W,
    errors: &mut E,
    n: usize,
    manner: Manner,
    buffers: &mut Buffers<'_>,
) -> Manner {
    match up_to(buffers.line, n) {
        b"plain" => Manner {
            detailed: false,
            ..manner
        },
        b"detailed" => Manner {
            detailed: true,
            ..manner
        },
        b"octets" => Manner {
            slow: true,
            ..manner
        },
        _ => {
            run_file(files, to, errors, n, manner, buffers);
            manner
        }
    }
}

// Puts argument i at the front of word, and answers its length, or none past the last argument. One that is longer than word counts
// as empty.
fn read_word<V: Env>(env: &V, i: usize, word: &mut [u8]) -> Option<usize>
    ensures { IfSome result (λ n. n ≤ length word.new) }
{
    match env.arg(i, word) {
        Ok(n) => Some(n),
        Err(FillError::TooLong) => Some(0),
        Err(FillError::NotPresent) => None,
    }
}

// The arguments in turn. Each is read into `line`, which is free until the trace that it names runs.
fn run_all<H: Files + Env, W: Write, E: Write>(
    rt: &H,
    to: &mut W,
    errors: &mut E,
    buffers: &mut Buffers<'_>,
) {
    let mut manner = Manner {
        detailed: false,
        slow: false,
    };
    for i in 1..usize::MAX {
        let Some(n) = read_word(rt, i, buffers.line) else {
            break;
        };
        manner = run_word(rt, to, errors, n, manner, buffers);
    }
}

// The buffers are those of `tracedetail`. `line` has room for the longest argument too: no path is longer.
fn main(rt: HostRuntime) {
    let mut part = [0u8; BUFFER];
    let mut line = [0u8; MOST_DETAIL];
    let mut room = [0u8; USUAL_ROOM];
    let mut out = [0u8; BUFFER];
    let mut buffers = Buffers {
        part: &mut part,
        line: &mut line,
        room: &mut room,
        out: &mut out,
    };
    run_all(&rt, &mut rt.stdout(), &mut rt.stderr(), &mut buffers);
}
