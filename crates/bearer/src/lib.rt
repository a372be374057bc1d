// Our open Request, the bearer in force, and what a message is to an endpoint. A Request and a bearer each hold a media line, with
// its texts in an array beside it.
#![tactic(auto)]

ghost use Rattle.std.specs.Prelude.{◌≡◌};
ghost use Rattle.bearer.specs.Meaning.{bearer_as, places_as};

use address::Address;
use configuration::MOST_NAME;
use ipbcp::{Description, MOST_READ};
use media::Stream;
use octets::append::Cursor;

// Room for "audio", "RTP/AVP" and an encoding name.
pub const MOST_OFFERED: usize = 12 + MOST_NAME;

// A Request of ours.
#[derive(Clone, Copy)]
pub struct Request {
    pub stream: Stream,
    pub text: [u8; MOST_OFFERED],
}

// A bearer, with the peer's address and port.
#[derive(Clone, Copy)]
pub struct Bearer {
    pub address: Address,
    pub stream: Stream,
    pub text: [u8; MOST_READ],
}

// What a message is to an endpoint. The texts of a description are places in the message.
#[derive(Clone, Copy)]
pub enum Heard {
    // Number 8 or 9.
    Unreadable,
    // A Request of another version.
    OtherRequest,
    // A Request of version 1, and what it says if it can be read to its end.
    Request(Option<Description>),
    // An Accepted of any version, and what it says if it is of version 1 and can be read to its end.
    Accepted(Option<Description>),
    // A Rejected or a Confused, of any version.
    Declined,
}

// The bearer of the message m: the description has its texts in m, which is copied.
pub fn hold(description: Description, m: &[u8]) -> Bearer
    ensures { result ≡ bearer_as description m.now }
{
    let mut text = [0u8; MOST_READ];
    Cursor::new(&mut text).push(m);
    Bearer {
        address: description.address,
        stream: description.stream,
        text,
    }
}

// The stream with another port and packet time.
pub fn restate(s: Stream, port: u16, ptime: u8) -> Stream
    ensures { result ≡ places_as port ptime s }
{
    Stream { port, ptime, ..s }
}
