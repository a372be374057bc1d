// The words of the fields.
ghost use Rattle.std.specs.Prelude.{◌≡◌, []};
ghost use Rattle.endpoint.specs.Step.{event_by};
ghost use Rattle.trace_write.specs.Words.{kind_word, state_word, notice_word, dropped_word};

use book::{Notice, State};
use endpoint::Event;

// The kind of an event.
#[tactic(auto, unfolding(crate::specs::Words::kind_word))]
pub(crate) fn kind_word(event: Event) -> &'static [u8]
    ensures { result.now ≡ kind_word (event_by event []) }
{
    match event {
        Event::SetUp(_, _, _) => b"U",
        Event::Change(_, _, _) => b"C",
        Event::Release => b"X",
        Event::T1 => b"T1",
        Event::T2 => b"T2",
        Event::Message => b"M",
    }
}

#[tactic(auto, unfolding(crate::specs::Words::state_word))]
pub(crate) fn state_word(state: State) -> &'static [u8]
    ensures { result.now ≡ state_word state }
{
    match state {
        State::Idle => b"idle",
        State::AwaitSetup => b"await-setup",
        State::Up => b"up",
        State::AwaitChange => b"await-change",
    }
}

#[tactic(auto, unfolding(crate::specs::Words::notice_word))]
pub(crate) fn notice_word(notice: Notice) -> &'static [u8]
    ensures { result.now ≡ notice_word notice }
{
    match notice {
        Notice::None => b"none",
        Notice::Up => b"up",
        Notice::Changed => b"changed",
        Notice::Released => b"released",
        Notice::SetupFailed => b"setup-failed",
        Notice::ChangeFailed => b"change-failed",
        Notice::Rejected => b"rejected",
        Notice::Confused => b"confused",
        Notice::Discarded => b"discarded",
    }
}

// Whether the peer's Request cancelled our change.
#[tactic(auto, unfolding(crate::specs::Words::dropped_word))]
pub(crate) fn dropped_word(dropped: bool) -> &'static [u8]
    ensures { result.now ≡ dropped_word dropped }
{
    if dropped { b"yes" } else { b"no" }
}
