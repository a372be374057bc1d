// The lines of events.
ghost use Rattle.std.specs.Prelude.{◌≡◌, [], ◌∷◌, ◌++◌, ◌≤◌, ◌/◌, length};
ghost use Rattle.std.proofs.Math.Option.{some};
ghost use Rattle.octets.specs.Chain.{when};
ghost use Rattle.octets.specs.Text.{lf};
ghost use Rattle.octets.specs.Append.{Pushes};
ghost use Rattle.book.specs.Book.{settled};
ghost use Rattle.configuration.specs.Meaning.{configuration_by, config_inside};
ghost use Rattle.endpoint.specs.Step.{book_of, event_by};
ghost use Rattle.trace_read.specs.Words.{most_line};
ghost use Rattle.trace_read.specs.Events.{line_event, message_by};
ghost use Rattle.trace.specs.Trace.{line_of, detail_if, next_number, event_effect};
ghost use Rattle.trace.specs.Meaning.{Does};
ghost use Rattle.trace.specs.Private.{effect_on, Passes, DidFront, ready_by, written_by, answer_line};

use crate::Session;
use book::State;
use endpoint::{Answer, Done, Endpoint, Event};
use notation::read_octets;
use octets::Refusal;
use octets::append::Cursor;
use octets::spans::{after, up_to};
use trace_read::events::read_event;
use trace_read::lend::lend;
use trace_read::{Asked, MOST_LINE};
use trace_write::detail::push_detail;
use trace_write::lines::{numbered, push_bad, push_event};

// Room for the octets of the longest message that a line can hold.
const MOST_MESSAGE: usize = MOST_LINE / 2;

// An event, with a message's digits read: its octets, `len` of them, are at the front of a buffer.
#[derive(Clone, Copy)]
struct Ready {
    event: Event,
    len: usize,
}

// How many octets a reply says were written.
#[tactic(auto, unfolding(crate::specs::Private::written_by))]
fn written_by(reply: Result<Done, Refusal>) -> usize
    ensures { result ≡ written_by reply }
{
    match reply {
        Ok(done) => done.written,
        Err(_) => 0,
    }
}

// Gives an event to the endpoint, with the first w octets of room. Only `Event::Message` looks at the message m.
fn give(endpoint: &Endpoint, event: Event, m: &[u8], room: &mut [u8], w: usize) -> Answer
    requires { w ≤ length room.old }
    ensures { DidFront endpoint.now (event_by event m.now) w room.old room.new result }
{
    endpoint.handle(event, m, &mut room[0..w])
}

// Appends the octets written and the bearer in force, if the trace is detailed.
fn push_more(detailed: bool, s: &[u8], endpoint: &Endpoint, out: &mut Cursor<'_>)
    ensures { Pushes out.old out.new (detail_if detailed s.now (settled (book_of endpoint.now))) }
{
    if detailed {
        push_detail(s, endpoint.in_force(), out);
    }
}

// Appends what a detailed trace adds, and the LF.
fn push_end(detailed: bool, s: &[u8], endpoint: &Endpoint, out: &mut Cursor<'_>)
    ensures { Pushes out.old out.new
        (detail_if detailed s.now (settled (book_of endpoint.now)) ++ (lf ∷ [])) }
{
    push_more(detailed, s, endpoint, out);
    out.push_octet(b'\n');
}

// A line that is no event; its number is n.
fn pass(endpoint: &Endpoint, n: u64, detailed: bool, out: &mut Cursor<'_>) -> Session
    ensures { Passes detailed endpoint.now n out.old out.new result }
{
    push_bad(n, endpoint.state, out);
    push_end(detailed, b"", endpoint, out);
    Session::Running {
        endpoint: *endpoint,
        number: n,
    }
}

// Appends the line of event n, whose answer is given and whose octets are in room. `state` is the state before the event.
fn push_answer(
    n: u64,
    event: Event,
    state: State,
    answer: &Answer,
    detailed: bool,
    room: &[u8],
    out: &mut Cursor<'_>,
)
    ensures { Pushes out.old out.new (answer_line detailed n event state answer.now room.now) }
{
    push_event(n, event, state, numbered(answer.reply), out);
    let written = up_to(room, written_by(answer.reply));
    push_end(detailed, written, &answer.endpoint, out);
}

// Event n, with as many octets of room as are wanted, or all of them.
fn handle(
    endpoint: &Endpoint,
    n: u64,
    detailed: bool,
    event: Event,
    m: &[u8],
    room: &mut [u8],
    wanted: usize,
    out: &mut Cursor<'_>,
) -> Session
    ensures { Does (config_inside endpoint.now.config)
        (effect_on detailed endpoint.now n (some (event_by event m.now)) room.old wanted)
        room.new out.old out.new result }
{
    let state = endpoint.state;
    let w = wanted.min(room.len());
    let answer = give(endpoint, event, m, room, w);
    push_answer(n, event, state, &answer, detailed, room, out);
    Session::Running {
        endpoint: answer.endpoint,
        number: n,
    }
}

// The event of a message, if t is its digits. Its octets are then at the front of `octets`.
fn read_message(t: &[u8], octets: &mut [u8]) -> Option<Ready>
    requires { length t.now / 2 ≤ length octets.old }
    ensures { ready_by octets.new result ≡ message_by t.now }
{
    let ready = Ready {
        event: Event::Message,
        len: t.len() / 2,
    };
    read_octets(t, octets).then_some(ready)
}

// The event of the line s, without the prefix that names the length of a buffer. The octets of a message are then at the front
// of `octets`.
fn read_line(s: &[u8], whole: bool, octets: &mut [u8]) -> Option<Ready>
    requires { most_line / 2 ≤ length octets.old }
    ensures { ready_by octets.new result ≡ when whole (line_event s.now) }
{
    if !whole {
        return None;
    }
    let asked = read_event(s)?;
    match asked {
        Asked::Event(event) => Some(Ready { event, len: 0 }),
        Asked::Digits => read_message(after(s, 2), octets),
    }
}

// The number after n. Line numbers saturate at 2^64 - 1.
fn next_number(n: u64) -> u64
    ensures { result ≡ next_number n }
{
    n.saturating_add(1)
}

// A line after the configuration; `number` is that of the last event.
pub(crate) fn run(
    endpoint: &Endpoint,
    number: u64,
    detailed: bool,
    line: &[u8],
    whole: bool,
    room: &mut [u8],
    out: &mut Cursor<'_>,
) -> Session
    ensures { Does (config_inside endpoint.now.config)
        (event_effect detailed (configuration_by endpoint.now.config) (book_of endpoint.now) number (line_of line.now whole) room.old)
        room.new out.old out.new result }
{
    let lent = lend(detailed, line);
    let n = next_number(number);
    let mut octets = [0u8; MOST_MESSAGE];
    match read_line(after(line, lent.at), whole, &mut octets) {
        Some(ready) => {
            let m = up_to(&octets, ready.len);
            handle(endpoint, n, detailed, ready.event, m, room, lent.room, out)
        }
        None => pass(endpoint, n, detailed, out),
    }
}
