// The line of an event, without its LF, and what is printed for a configuration.
ghost use Rattle.std.specs.Prelude.{◌≡◌, [], ◌∷◌, ◌++◌, Err};
ghost use Rattle.std.proofs.Math.Option.{none, some};
ghost use Rattle.octets.specs.Text.{blank};
ghost use Rattle.octets.specs.Append.{Pushes, number_text};
ghost use Rattle.octets.specs.declared.Refusal.TheVariants.{BadLine};
ghost use Rattle.octets.specs.Refusals.{refusal_number};
ghost use Rattle.endpoint.specs.Step.{event_by};
ghost use Rattle.trace_write.specs.Lines.{header_line, refused_line, refusal_text, done_text, numbered, reply_text, event_text};

use crate::words::{dropped_word, kind_word, notice_word, state_word};
use book::State;
use endpoint::{Done, Event};
use notation::push_refused;
use octets::Refusal;
use octets::append::Cursor;

// Appends the line of field names.
pub fn push_header(out: &mut Cursor<'_>)
    ensures { Pushes out.old out.new header_line }
{
    out.push(b"n event state notice dropped written\n");
}

// Appends what is printed for a configuration that is refused.
pub fn push_refused_line(out: &mut Cursor<'_>)
    ensures { Pushes out.old out.new refused_line }
{
    push_refused(Refusal::BadConfiguration.number(), out);
    out.push_octet(b'\n');
}

// Appends a word and a blank.
fn push_word(word: &[u8], out: &mut Cursor<'_>)
    ensures { Pushes out.old out.new (word.now ++ (blank ∷ [])) }
{
    out.push(word);
    out.push_octet(b' ');
}

// Appends what a refusal by number n has after the state.
fn push_refusal(n: u8, out: &mut Cursor<'_>)
    ensures { Pushes out.old out.new (refusal_text n) }
{
    push_refused(n, out);
    out.push(b" no 0");
}

// Appends what an event that is not refused has after the state.
fn push_done(done: Done, out: &mut Cursor<'_>)
    ensures { Pushes out.old out.new (done_text done) }
{
    push_word(notice_word(done.notice), out);
    push_word(dropped_word(done.dropped), out);
    out.push_number(done.written as u64);
}

// A reply, with the number that refuses in place of the refusal.
#[tactic(auto, unfolding(crate::specs::Lines::numbered))]
pub fn numbered(reply: Result<Done, Refusal>) -> Result<Done, u8>
    ensures { result ≡ numbered reply }
{
    match reply {
        Ok(done) => Ok(done),
        Err(e) => Err(e.number()),
    }
}

// Appends a reply; `state` is the state that a refusal leaves.
fn push_reply(state: State, reply: Result<Done, u8>, out: &mut Cursor<'_>)
    ensures { Pushes out.old out.new (reply_text state reply) }
{
    match reply {
        Ok(done) => {
            push_word(state_word(done.state), out);
            push_done(done, out);
        }
        Err(n) => {
            push_word(state_word(state), out);
            push_refusal(n, out);
        }
    }
}

// Appends a number, the word for its kind, and a reply.
fn push_line(number: u64, kind: &[u8], state: State, reply: Result<Done, u8>, out: &mut Cursor<'_>)
    ensures { Pushes out.old out.new (number_text number ++ (blank ∷ (kind.now ++ (blank ∷ reply_text state reply)))) }
{
    out.push_number_then(number, b' ');
    push_word(kind, out);
    push_reply(state, reply, out);
}

// Appends the line of an event; `state` is the endpoint's state before it.
pub fn push_event(
    number: u64,
    event: Event,
    state: State,
    reply: Result<Done, u8>,
    out: &mut Cursor<'_>,
)
    ensures { Pushes out.old out.new (event_text number (some (event_by event [])) state reply) }
{
    push_line(number, kind_word(event), state, reply, out);
}

// Appends what is printed for a line that is no event.
pub fn push_bad(number: u64, state: State, out: &mut Cursor<'_>)
    ensures { Pushes out.old out.new (event_text number none state (Err (refusal_number BadLine))) }
{
    push_line(number, b"bad", state, Err(Refusal::BadLine.number()), out);
}
