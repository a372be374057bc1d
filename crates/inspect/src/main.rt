// Shows what the card reads: answers each line of standard input with one line.
#![tactic(auto)]

mod addresses;
mod answer;
mod codec_match;
mod elements;
mod input;
mod message;
mod print;
mod rewrite;
mod tunnel;
mod values;

use bat::MOST_OCTETS;
use line_run::{Answer, run};
use octets::append::Cursor;

// How many octets are read at once, and how many may wait to be written.
const BUFFER: usize = 65536;

// Room that is kept for a line of output, so that none is cut. The longest is for 2,048 octets with 682 unknown
// elements: 35 octets for each, and 6 more if its diagnostic is listed, under 28,000 in all.
const LINE_ROOM: usize = 40960;

// A line has at most 16,384 octets with its LF, so its digits stand for fewer than 8,192 octets.
const MOST_LINE: usize = 16383;

const MOST_DATA: usize = 8192;

// What answers a line: it has room for the octets that the line's digits stand for.
#[derive(Clone, Copy)]
struct Inspector {
    data: [u8; MOST_DATA],
}

impl Answer for Inspector {
    // A last line without LF is answered like the others.
    fn answer(
        &mut self,
        line: &[u8],
        fits: bool,
        _ended: bool,
        room: &mut [u8],
        out: &mut Cursor<'_>,
    ) {
        if fits {
            answer::push_answer(line, &mut self.data, room, out);
        } else {
            print::bad_line(out);
        }
        out.push_octet(b'\n');
    }

    fn goes_on(&self) -> bool {
        true
    }

    fn finish(&self, _out: &mut Cursor<'_>) {}
}

// A written element has at most 2,048 octets, so no more of a longer buffer is used.
fn main(rt: HostRuntime) {
    let mut inspector = Inspector {
        data: [0u8; MOST_DATA],
    };
    let mut part = [0u8; BUFFER];
    let mut line = [0u8; MOST_LINE];
    let mut room = [0u8; MOST_OCTETS];
    let mut out = [0u8; BUFFER];
    run(
        &mut rt.stdin(),
        &mut rt.stdout(),
        &mut rt.stderr(),
        &mut inspector,
        LINE_ROOM,
        &mut part,
        &mut line,
        &mut room,
        &mut out,
    );
}
