// Document 01's trace program: gives the events on standard input to one endpoint, and prints a line for each.
#![tactic(auto)]

use trace_read::{MOST_LINE, USUAL_ROOM};

// How many octets are read at once, and how many may wait to be written.
const BUFFER: usize = 65536;

// A line has at most 1,200 octets with its LF.
fn main(rt: HostRuntime) {
    let mut part = [0u8; BUFFER];
    let mut line = [0u8; MOST_LINE - 1];
    let mut room = [0u8; USUAL_ROOM];
    let mut out = [0u8; BUFFER];
    trace_run::run(
        &mut rt.stdin(),
        &mut rt.stdout(),
        &mut rt.stderr(),
        false,
        &mut part,
        &mut line,
        &mut room,
        &mut out,
    );
}
