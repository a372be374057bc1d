// Elements of Q.765.5, the bearer association transport (BAT): the types that this crate and those above it take and
// answer, by value. A span is a place in a slice that is passed beside it: the data, or an element's contents.
#![tactic(auto)]

ghost use Rattle.std.specs.Prelude.{◌≡◌};
ghost use Rattle.octets.specs.declared.Refusal.TheVariants as Refusal;

pub mod elements;
pub mod framing;
pub mod judging;
pub mod ranges;

use octets::{Refusal, Span};

// The most octets of application data, and of a whole element.
pub const MOST_OCTETS: usize = 2048;

// A length field: the number, and how many octets it takes.
#[derive(Clone, Copy)]
pub struct Size {
    pub length: u16,
    pub octets: u8,
}

// An element at the front of a slice. After its identifier come `size` octets of length, the first
// compatibility octet, `extension` more of them, and `length` octets of contents.
#[derive(Clone, Copy)]
pub struct Frame {
    pub identifier: u8,
    pub size: u8,
    pub compatibility: u8,
    pub extension: u16,
    pub length: u16,
}

// No element can be framed at the front of a slice that is not empty.
#[derive(Clone, Copy)]
pub struct Unframed;

impl From<Unframed> for Refusal {
    ghost from_gives = { λ _ e. e ≡ Refusal.Unframed };

    fn from(_e: Unframed) -> Refusal {
        Refusal::Unframed
    }
}

// A single codec: its organisation, and the octets after it.
#[derive(Clone, Copy)]
pub struct SingleCodec {
    pub organisation: u8,
    pub information: Span,
}

// The signal type inside a signal, with bits 7 to 1 of its own compatibility octet.
#[derive(Clone, Copy)]
pub struct InnerType {
    pub compatibility: u8,
    pub kind: u8,
}

// The duration inside a signal, with bits 7 to 1 of its own compatibility octet.
#[derive(Clone, Copy)]
pub struct InnerDuration {
    pub compatibility: u8,
    pub duration: u16,
}

// The value of a decoded element. A span is a place in the element's contents.
#[derive(Clone, Copy)]
pub enum Value {
    Action(u8),
    Backbone(Span),
    Address(Span),
    Codecs(Span),
    Single(SingleCodec),
    Report {
        reason: u8,
        diagnostics: Span,
    },
    Characteristics(u8),
    Control(Span),
    Tunnelling(bool),
    Unit {
        network: Span,
        local: Span,
    },
    Signal {
        kind: InnerType,
        duration: Option<InnerDuration>,
    },
    Capability(bool),
    Indicators(Span),
    SignalType(u8),
    Duration(u16),
}

// An element is unrecognised: its first faulty inner element is at fault, given by the place of that one's identifier in
// the contents, or if there is none the element itself.
#[derive(Clone, Copy)]
pub struct Unrecognised {
    pub inner: Option<usize>,
}

// What an unrecognised element asks for.
#[derive(Clone, Copy, PartialEq, Eq)]
pub enum Outcome {
    PassOn,
    DiscardElement,
    DiscardData,
    Release,
}

// What a compatibility report says about an element: its identifier, and the index of the fault.
#[derive(Clone, Copy)]
pub struct Diagnostic {
    pub identifier: u8,
    pub index: usize,
}

// The judgement of an unrecognised element: its outcome, whether it asks for notice, and its diagnostic.
#[derive(Clone, Copy)]
pub struct Judged {
    pub outcome: Outcome,
    pub notice: bool,
    pub diagnostic: Diagnostic,
}

// The outcome of application data as a whole.
#[derive(Clone, Copy, PartialEq, Eq)]
pub enum DataOutcome {
    Neither,
    DiscardAll,
    ReleaseAll,
}

// Application data that is taken: how many elements it has, and their outcome.
#[derive(Clone, Copy)]
pub struct Taken {
    pub count: usize,
    pub outcome: DataOutcome,
}
