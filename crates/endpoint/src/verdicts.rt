// What each verdict does to an endpoint, and the reply.
ghost use Rattle.std.specs.Prelude.{◌≡◌, true, cond};
ghost use Rattle.book.specs.Book.{closed, opening, settling, Verdict};
ghost use Rattle.bearer.specs.Meaning.{request_by, bearer_by, request_inside, bearer_inside};
ghost use Rattle.endpoint.specs.Step.{book_of};
ghost use Rattle.endpoint.specs.Private.{answer_at, Same, Silent, Says};

use crate::{Answer, Done, Endpoint};
use bearer::{Bearer, Request};
use book::{Notice, State, by_state, closed_state, drops, opened_state, settled_side};
use octets::Refusal;

impl Endpoint {
    // The open Request is closed.
    fn closed(&self) -> Endpoint
        ensures { Same self.now result (closed (book_of self.now)) }
    {
        Endpoint {
            state: closed_state(self.state),
            ..*self
        }
    }

    // The Request is opened; the bearer stays in force until an exchange succeeds.
    fn opening(&self, request: Request) -> Endpoint
        requires { request_inside request ≡ true }
        ensures { Same self.now result (opening (request_by request) (book_of self.now)) }
    {
        Endpoint {
            state: opened_state(self.state),
            request,
            ..*self
        }
    }

    // The bearer is put in force.
    fn settling(&self, bearer: Bearer) -> Endpoint
        requires { bearer_inside bearer ≡ true }
        ensures { Same self.now result (settling (bearer_by bearer) (book_of self.now)) }
    {
        Endpoint {
            state: State::Up,
            side: settled_side(self.state, self.side),
            bearer,
            ..*self
        }
    }

    // The answer that leaves this endpoint and tells its state.
    fn done(&self, notice: Notice, written: usize, dropped: bool) -> Answer
        ensures { result ≡ answer_at self.now notice written dropped }
    {
        Answer {
            endpoint: *self,
            reply: Ok(Done {
                state: self.state,
                notice,
                written,
                dropped,
            }),
        }
    }

    // The event is refused.
    pub(crate) fn refused(&self, e: Refusal) -> Answer
        ensures { Silent self.now (Verdict.refused e) result }
    {
        Answer {
            endpoint: *self,
            reply: Err(e),
        }
    }

    // The event is discarded.
    pub(crate) fn discarded(&self) -> Answer
        ensures { Silent self.now Verdict.discarded result }
    {
        self.done(Notice::Discarded, 0, false)
    }

    // The attempt has failed.
    pub(crate) fn failed(&self) -> Answer
        ensures { Silent self.now Verdict.failed result }
    {
        let notice = by_state(self.state, Notice::SetupFailed, Notice::ChangeFailed);
        self.closed().done(notice, 0, false)
    }

    // The attempt fails if what ends it was awaited; otherwise the event is discarded.
    pub(crate) fn failed_if(&self, awaited: bool) -> Answer
        ensures { Silent self.now (cond awaited Verdict.failed Verdict.discarded) result }
    {
        if awaited {
            return self.failed();
        }
        self.discarded()
    }

    // The bearer or the attempt is released.
    pub(crate) fn released(&self) -> Answer
        ensures { Silent self.now Verdict.released result }
    {
        let idle = Endpoint {
            state: State::Idle,
            ..*self
        };
        idle.done(Notice::Released, 0, false)
    }

    // A right Accepted was taken.
    pub(crate) fn agreed(&self, bearer: Bearer) -> Answer
        requires { bearer_inside bearer ≡ true }
        ensures { Silent self.now (Verdict.agreed (bearer_by bearer)) result }
    {
        let notice = by_state(self.state, Notice::Up, Notice::Changed);
        self.settling(bearer).done(notice, 0, false)
    }

    // A command's Request was written.
    pub(crate) fn opened(&self, request: Request, written: usize) -> Answer
        requires { request_inside request ≡ true }
        ensures { Says self.now (λ o. Verdict.opened (request_by request) o) written result }
    {
        self.opening(request).done(Notice::None, written, false)
    }

    // A Confused was written.
    pub(crate) fn request_confused(&self, written: usize) -> Answer
        ensures { Says self.now (λ o. Verdict.request_confused o) written result }
    {
        self.done(Notice::Confused, written, false)
    }

    // An Accepted was written.
    pub(crate) fn request_right(&self, bearer: Bearer, written: usize) -> Answer
        requires { bearer_inside bearer ≡ true }
        ensures { Says self.now (λ o. Verdict.request_right (bearer_by bearer) o) written result }
    {
        let notice = by_state(self.state, Notice::Up, Notice::Changed);
        let dropped = drops(self.state);
        self.settling(bearer).done(notice, written, dropped)
    }

    // A Rejected was written.
    pub(crate) fn request_wrong(&self, written: usize) -> Answer
        ensures { Says self.now (λ o. Verdict.request_wrong o) written result }
    {
        let dropped = drops(self.state);
        self.closed().done(Notice::Rejected, written, dropped)
    }
}
