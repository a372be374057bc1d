// Reads the lines of a trace: an event, what configures the endpoint, the length of an output buffer.
#![tactic(auto)]

pub mod configure;
pub mod events;
pub mod lend;

use endpoint::Event;

// The most octets of a line, with its LF.
pub const MOST_LINE: usize = 1200;

// The octets that are lent to an event if its line doesn't say how many.
pub const USUAL_ROOM: usize = 2048;

// What a line asks of the endpoint.
#[derive(Clone, Copy)]
pub enum Asked {
    Event(Event),
    // A message. Its digits come after the first two octets of the line, and are not read yet.
    Digits,
}

// How many octets are lent to an event, and where its text begins in the line.
#[derive(Clone, Copy)]
pub struct Lent {
    pub room: usize,
    pub at: usize,
}
