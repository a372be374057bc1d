// One bearer endpoint: a method for each event, and `handle` over them.
#![tactic(auto)]

mod commands;
mod messages;
mod timers;
mod verdicts;

ghost use Rattle.std.specs.Prelude.{◌≡◌};
ghost use Rattle.book.specs.Book.{settled};
ghost use Rattle.bearer.specs.Meaning.{in_force_by};
ghost use Rattle.endpoint.specs.Step.{book_of, blank_stream, Creates, event_by, Did};

use address::Address;
use bearer::{Bearer, MOST_OFFERED, Request};
use book::{Notice, Side, State, holds};
use configuration::Config;
use configuration::check::check;
use ipbcp::MOST_READ;
use media::Stream;
use octets::{Refusal, Span};

// The shortest output buffer that is taken.
pub const LEAST_ROOM: usize = 512;

// An endpoint: its configuration and its book. Side and bearer have a meaning while a bearer is in force, the Request while it is
// open.
#[derive(Clone, Copy)]
pub struct Endpoint {
    pub config: Config,
    pub state: State,
    pub side: Side,
    pub request: Request,
    pub bearer: Bearer,
}

// What an event did that is not refused: the state after it, the notice, the number of octets at the front of the output buffer,
// and whether the peer's Request cancelled our pending change.
#[derive(Clone, Copy)]
pub struct Done {
    pub state: State,
    pub notice: Notice,
    pub written: usize,
    pub dropped: bool,
}

// The endpoint after an event, and the reply. A refusal leaves the endpoint as it was.
#[derive(Clone, Copy)]
pub struct Answer {
    pub endpoint: Endpoint,
    pub reply: Result<Done, Refusal>,
}

// An event as a value, for `handle`, which takes the octets of a message beside it.
#[derive(Clone, Copy)]
pub enum Event {
    // A codec entry, counted from 1, a payload and a packet time.
    SetUp(u16, u16, u16),
    Change(u16, u16, u16),
    Release,
    T1,
    T2,
    Message,
}

// Whether the configuration is valid, and a new endpoint with it. If it is not valid the methods still answer, but theorems that
// take a valid configuration do not apply.
#[derive(Clone, Copy)]
pub struct Created {
    pub checked: Result<(), Refusal>,
    pub endpoint: Endpoint,
}

// A stream that says nothing.
fn blank_stream() -> Stream
    ensures { result ≡ blank_stream }
{
    let none = Span { at: 0, len: 0 };
    media::bare(none, 0, none, 0)
}

impl Endpoint {
    // A new endpoint, and a refusal if the configuration is not valid.
    pub fn new(config: Config) -> Created
        ensures { Creates config result }
    {
        let stream = blank_stream();
        Created {
            checked: check(config),
            endpoint: Endpoint {
                config,
                state: State::Idle,
                side: Side::I,
                request: Request {
                    stream,
                    text: [0; MOST_OFFERED],
                },
                bearer: Bearer {
                    address: Address::V4(0),
                    stream,
                    text: [0; MOST_READ],
                },
            },
        }
    }

    // The bearer in force, if there is one.
    pub fn in_force(&self) -> Option<&Bearer>
        ensures { in_force_by result ≡ settled (book_of self.now) }
    {
        holds(self.state).then_some(&self.bearer)
    }

    // Any event; m is the message of `Event::Message`, ignored for other events.
    pub fn handle(self, event: Event, m: &[u8], out: &mut [u8]) -> Answer
        ensures { Did self (event_by event m.now) out.old out.new result }
    {
        match event {
            Event::SetUp(entry, payload, ptime) => self.set_up(entry, payload, ptime, out),
            Event::Change(entry, payload, ptime) => self.change(entry, payload, ptime, out),
            Event::Release => self.release(out),
            Event::T1 => self.expire_t1(out),
            Event::T2 => self.expire_t2(out),
            Event::Message => self.message(m, out),
        }
    }
}
