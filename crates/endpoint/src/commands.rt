// Commands from call control.
ghost use Rattle.std.proofs.Math.Option.{some};
ghost use Rattle.bearer.specs.Judging.{commanded};
ghost use Rattle.bearer.specs.Meaning.{request_by};
ghost use Rattle.configuration.specs.Meaning.{configuration_by};
ghost use Rattle.endpoint.specs.Rule.{Event, command_verdict};
ghost use Rattle.endpoint.specs.Step.{Gave, Did};
ghost use Rattle.endpoint.specs.Private.{Offerable, InRoom, in_state};

use crate::{Answer, Endpoint, LEAST_ROOM};
use bearer::Request;
use book::State;
use ipbcp::Body;
use ipbcp_write::write_message;
use judge::commands::request_for;
use octets::Refusal;

impl Endpoint {
    // Writes the Request, and opens it.
    fn offer(&self, request: Request, out: &mut [u8]) -> Answer
        requires { Offerable request out.old }
        ensures { Gave self.now (command_verdict (configuration_by self.now.config) (some (request_by request))) out.old out.new result }
    {
        let body = Body::Request(request.stream);
        match write_message(body, self.config.own, &request.text, out) {
            Ok(n) => self.opened(request, n),
            Err(e) => self.refused(e),
        }
    }

    // A command for a Request: a set-up, which suits idle, or a change, which suits up.
    fn command(&self, suited: State, entry: u16, payload: u16, ptime: u16, out: &mut [u8]) -> Answer
        ensures { InRoom self.now (in_state self.now.state suited (command_verdict (configuration_by self.now.config) (commanded (configuration_by self.now.config) entry payload ptime))) out.old out.new result }
    {
        if out.len() < LEAST_ROOM {
            return self.refused(Refusal::BufferTooShort);
        }
        if self.state != suited {
            return self.refused(Refusal::WrongState);
        }
        match request_for(self.config, entry, payload, ptime) {
            Some(request) => self.offer(request, out),
            None => self.refused(Refusal::OutOfRange),
        }
    }

    // Call control sets up a bearer: it names a codec entry, a payload and a packet time.
    pub fn set_up(self, entry: u16, payload: u16, ptime: u16, out: &mut [u8]) -> Answer
        ensures { Did self (Event.set_up entry payload ptime) out.old out.new result }
    {
        self.command(State::Idle, entry, payload, ptime, out)
    }

    // Call control changes the bearer in force.
    pub fn change(self, entry: u16, payload: u16, ptime: u16, out: &mut [u8]) -> Answer
        ensures { Did self (Event.change entry payload ptime) out.old out.new result }
    {
        self.command(State::Up, entry, payload, ptime, out)
    }

    // Call control releases the bearer, or ends the attempt to set one up.
    pub fn release(self, out: &mut [u8]) -> Answer
        ensures { Did self Event.release out.old out.new result }
    {
        if out.len() < LEAST_ROOM {
            return self.refused(Refusal::BufferTooShort);
        }
        if self.state == State::Idle {
            return self.refused(Refusal::WrongState);
        }
        self.released()
    }
}
