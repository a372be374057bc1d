// Messages from the peer.
ghost use Rattle.std.specs.Prelude.{◌≤◌, length, IfSome};
ghost use Rattle.book.specs.Book.{awaited, Verdict};
ghost use Rattle.bearer.specs.Hearing as hears;
ghost use Rattle.bearer.specs.Meaning.{named_by, named_if};
ghost use Rattle.configuration.specs.Meaning.{configuration_by};
ghost use Rattle.endpoint.specs.Rule.{Event, if_awaited, answer_confused, answer_rejected, answer_accepted, message_verdict, least_room};
ghost use Rattle.endpoint.specs.Step.{book_of, Gave, Did};
ghost use Rattle.endpoint.specs.Private.{Silent, Heeds, Readable, Answerable};

use crate::{Answer, Endpoint, LEAST_ROOM};
use bearer::{Heard, hold, restate};
use book::{awaits, ignores};
use ipbcp::{Body, Description};
use ipbcp_write::write_message;
use judge::accepteds::right_accepted;
use judge::hearing::hear;
use judge::requests::{nearest_time, right_request};
use octets::Refusal;

impl Endpoint {
    // Answers with a Confused.
    fn confuse(&self, out: &mut [u8]) -> Answer
        requires { least_room ≤ length out.old }
        ensures { Gave self.now (answer_confused (configuration_by self.now.config)) out.old out.new result }
    {
        match write_message(Body::Confused, self.config.own, b"", out) {
            Ok(n) => self.request_confused(n),
            Err(e) => self.refused(e),
        }
    }

    // Answers with a Rejected.
    fn reject(&self, out: &mut [u8]) -> Answer
        requires { least_room ≤ length out.old }
        ensures { Gave self.now (answer_rejected (configuration_by self.now.config)) out.old out.new result }
    {
        match write_message(Body::Rejected, self.config.own, b"", out) {
            Ok(n) => self.request_wrong(n),
            Err(e) => self.refused(e),
        }
    }

    // Answers a right Request, which says d, with an Accepted: own port, the packet time moved into range, the rest copied from m.
    fn accept(&self, d: Description, m: &[u8], out: &mut [u8]) -> Answer
        requires { Answerable m.now d out.old }
        ensures { Gave self.now (answer_accepted (configuration_by self.now.config) (named_by m.now d)) out.old out.new result }
    {
        let ptime = nearest_time(self.config, d.stream.ptime);
        let granted = Description {
            stream: restate(d.stream, d.stream.port, ptime),
            ..d
        };
        let answer = restate(d.stream, self.config.port, ptime);
        match write_message(Body::Accepted(answer), self.config.own, m, out) {
            Ok(n) => self.request_right(hold(granted, m), n),
            Err(e) => self.refused(e),
        }
    }

    // A Request of another version.
    fn hear_other(&self, out: &mut [u8]) -> Answer
        requires { least_room ≤ length out.old }
        ensures { Heeds self.now hears.other_version_heard out.old out.new result }
    {
        if ignores(self.state, self.side) {
            return self.discarded();
        }
        self.confuse(out)
    }

    // A Request, and what it says if it can be read to its end, with its texts in m.
    fn hear_request(&self, description: Option<Description>, m: &[u8], out: &mut [u8]) -> Answer
        requires room { least_room ≤ length out.old }
        requires readable { IfSome description (λ d. Readable m.now d) }
        ensures { Heeds self.now (hears.request_heard (named_if m.now description)) out.old out.new result }
    {
        if ignores(self.state, self.side) {
            return self.discarded();
        }
        match description {
            Some(d) if right_request(self.config, self.in_force(), d, m) => self.accept(d, m, out),
            _ => self.reject(out),
        }
    }

    // An Accepted, and what it says if it is of version 1 and can be read to its end, with its texts in m.
    fn hear_accepted(&self, description: Option<Description>, m: &[u8]) -> Answer
        requires { IfSome description (λ d. Readable m.now d) }
        ensures { Silent self.now (message_verdict (configuration_by self.now.config) (book_of self.now) (hears.accepted_heard (named_if m.now description))) result }
    {
        if !awaits(self.state) {
            return self.discarded();
        }
        match description {
            Some(d) if right_accepted(self.config, self.in_force(), self.request, d, m) => {
                self.agreed(hold(d, m))
            }
            _ => self.failed(),
        }
    }

    // A message has arrived.
    pub fn message(self, m: &[u8], out: &mut [u8]) -> Answer
        ensures { Did self (Event.message m.now) out.old out.new result }
    {
        if out.len() < LEAST_ROOM {
            return self.refused(Refusal::BufferTooShort);
        }
        match hear(m) {
            Heard::Unreadable => self.discarded(),
            Heard::OtherRequest => self.hear_other(out),
            Heard::Request(description) => self.hear_request(description, m, out),
            Heard::Accepted(description) => self.hear_accepted(description, m),
            Heard::Declined => self.failed_if(awaits(self.state)),
        }
    }
}
