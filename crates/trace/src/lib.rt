// A trace, line by line: what a line prints, and what it leaves.
#![tactic(auto)]

mod configuring;
mod events;

ghost use Rattle.octets.specs.Append.{Pushes};
ghost use Rattle.trace.specs.Trace.{line_of, line_effect, ending};
ghost use Rattle.trace.specs.Meaning.{trace_by, inside_by, Begins, Does};

use crate::configuring::{close, configure, open};
use crate::events::run;
use configuration::Config;
use endpoint::Endpoint;
use octets::append::Cursor;
use trace_write::lines::push_refused_line;

// What the lines so far have left.
#[derive(Clone, Copy)]
pub enum Session {
    // No line has come.
    Start,
    // The endpoint's configuration, with those codecs that have come.
    Configuring(Config),
    // The endpoint, and the number of its last event.
    Running { endpoint: Endpoint, number: u64 },
    // The configuration was refused, and nothing more is printed.
    Stopped,
}

impl Session {
    // No line has come.
    pub fn new() -> Session
        ensures { Begins result }
    {
        Session::Start
    }

    // Appends what the line prints, and gives what it leaves. The line is without its LF; `whole` says whether an LF ended it and all
    // of it is there. The line's event gets as many octets of room as the line asks for.
    pub fn step(
        self,
        detailed: bool,
        line: &[u8],
        whole: bool,
        room: &mut [u8],
        out: &mut Cursor<'_>,
    ) -> Session
        ensures { Does (inside_by self)
            (line_effect detailed (trace_by self) (line_of line.now whole) room.old)
            room.new out.old out.new result }
    {
        match &self {
            Session::Start => open(line, whole, out),
            Session::Configuring(config) => configure(*config, detailed, line, whole, room, out),
            Session::Running { endpoint, number } => {
                run(endpoint, *number, detailed, line, whole, room, out)
            }
            Session::Stopped => Session::Stopped,
        }
    }

    // Appends what is printed at the end of the input.
    pub fn finish(self, out: &mut Cursor<'_>)
        ensures { Pushes out.old out.new (ending (trace_by self)) }
    {
        match self {
            Session::Start => push_refused_line(out),
            Session::Configuring(config) => close(config, out),
            Session::Running { .. } => {}
            Session::Stopped => {}
        }
    }
}
