// Timers that have expired.
ghost use Rattle.std.specs.Prelude.{cond};
ghost use Rattle.book.specs.Book.{Verdict};
ghost use Rattle.endpoint.specs.Rule.{Event};
ghost use Rattle.endpoint.specs.Step.{Did};
ghost use Rattle.endpoint.specs.Private.{InRoom};

use crate::{Answer, Endpoint, LEAST_ROOM};
use book::{awaits_t1, awaits_t2};
use octets::Refusal;

impl Endpoint {
    // A timer has expired, which is awaited or not.
    fn expire(&self, awaited: bool, out: &[u8]) -> Answer
        ensures { InRoom self.now (cond awaited Verdict.failed Verdict.discarded) out.now out.now result }
    {
        if out.len() < LEAST_ROOM {
            return self.refused(Refusal::BufferTooShort);
        }
        self.failed_if(awaited)
    }

    // T1 has expired.
    pub fn expire_t1(self, out: &mut [u8]) -> Answer
        ensures { Did self Event.t1 out.old out.new result }
    {
        self.expire(awaits_t1(self.state), out)
    }

    // T2 has expired.
    pub fn expire_t2(self, out: &mut [u8]) -> Answer
        ensures { Did self Event.t2 out.old out.new result }
    {
        self.expire(awaits_t2(self.state), out)
    }
}
