// The trace program, with the octets written and the bearer in force on each line, and with output buffers of any length.
#![tactic(auto)]

use trace_read::USUAL_ROOM;
use trace_run::MOST_DETAIL;

// How many octets are read at once, and how many may wait to be written.
const BUFFER: usize = 65536;

// A line has at most 1,200 octets with its LF, and the length of a buffer before them. At most 2,048 octets are lent, however long the
// buffer is said to be: no message that the card writes is that long.
fn main(rt: HostRuntime) {
    let mut part = [0u8; BUFFER];
    let mut line = [0u8; MOST_DETAIL];
    let mut room = [0u8; USUAL_ROOM];
    let mut out = [0u8; BUFFER];
    trace_run::run(
        &mut rt.stdin(),
        &mut rt.stdout(),
        &mut rt.stderr(),
        true,
        &mut part,
        &mut line,
        &mut room,
        &mut out,
    );
}
