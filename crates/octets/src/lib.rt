// Shared by readers and writers of octets: the parts of a text, appending to a buffer, decimal numbers, hexadecimal
// text, spans and words.
#![tactic(auto)]

pub mod append;
pub mod decimal;
pub mod hex;
pub mod parts;
pub mod spans;
pub mod words;

ghost use Rattle.std.specs.Prelude.{◌≡◌};
ghost use Rattle.octets.specs.Refusals.{refusal_number};

// For C, `bat_table` and `card_packet` answer one number: a count, or this number plus document 01's. No count reaches it.
pub const REFUSED: usize = 65536;

// Why something is refused: document 01's refusals in the order of their numbers, and document 02's two of E1.
#[derive(Clone, Copy, Debug, PartialEq, Eq)]
pub enum Refusal {
    // Application data over 2,048 octets.
    DataTooLong,
    // Elements can't be framed.
    Unframed,
    // More elements than the lent table has entries.
    TableTooShort,
    // The output buffer is too short.
    BufferTooShort,
    // A field to be written is out of range.
    OutOfRange,
    // A tunnel packet under 2 octets.
    PacketTooShort,
    // A fixed bit of a tunnel packet's indicators is wrong.
    WrongIndicators,
    MessageTooLong,
    // A message with no readable lines or type.
    Unreadable,
    // A message whose type is readable has another line that is wrong.
    WrongLine,
    // A command does not suit the state.
    WrongState,
    BadConfiguration,
    // A bad line of a trace.
    BadLine,
    // One of two strings has no codec list.
    NoCodecList,
    // Two codec lists have no codec in common.
    NoCommonCodec,
}

impl Refusal {
    // The document's number.
    pub fn number(self) -> u8
        ensures { result ≡ refusal_number self }
    {
        match self {
            Refusal::DataTooLong => 1,
            Refusal::Unframed => 2,
            Refusal::TableTooShort => 3,
            Refusal::BufferTooShort => 4,
            Refusal::OutOfRange => 5,
            Refusal::PacketTooShort => 6,
            Refusal::WrongIndicators => 7,
            Refusal::MessageTooLong => 8,
            Refusal::Unreadable => 9,
            Refusal::WrongLine => 10,
            Refusal::WrongState => 11,
            Refusal::BadConfiguration => 12,
            Refusal::BadLine => 13,
            Refusal::NoCodecList => 14,
            Refusal::NoCommonCodec => 15,
        }
    }
}

// A part of a text: where it starts, and how long it is.
#[derive(Clone, Copy)]
pub struct Span {
    pub at: usize,
    pub len: usize,
}
