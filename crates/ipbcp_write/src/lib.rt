// Q.1970 messages (IPBCP) of version 1, written.
#![tactic(auto)]

mod lines;
mod ranges;
mod stream;

ghost use Rattle.std.specs.Prelude.{◌≡◌};
ghost use Rattle.octets.specs.Append.{Pushes};
ghost use Rattle.octets.specs.Puts.{bounded, Puts};
ghost use Rattle.sdp.specs.Written.{lines_text};
ghost use Rattle.ipbcp.specs.Writing.{media_lines, message_text, message_octets_in, most_written};
ghost use Rattle.ipbcp.specs.Meaning.{content_in};
ghost use Rattle.ipbcp_write.specs.Private.{content_by, body_type};

use address::Address;
use ipbcp::{Body, MessageType};
use octets::Refusal;
use octets::append::{Cursor, put_front};

// The longest message that is written.
pub const MOST_WRITTEN: usize = 447;

// Room for one octet more, so that a message that is too long can be told from one that just fits.
const SCRATCH: usize = MOST_WRITTEN + 1;

// The type of a message.
#[tactic(auto, unfolding(crate::specs::Private::body_type))]
fn kind_of(body: Body) -> MessageType
    ensures { result ≡ body_type body }
{
    match body {
        Body::Request(_) => MessageType::Request,
        Body::Accepted(_) => MessageType::Accepted,
        Body::Confused => MessageType::Confused,
        Body::Rejected => MessageType::Rejected,
    }
}

// Appends the media line and its attributes, of a message that has them.
fn push_body(body: Body, source: &[u8], out: &mut Cursor<'_>)
    ensures { Pushes out.old out.new (lines_text (media_lines (content_by source.now body))) }
{
    match body {
        Body::Request(s) | Body::Accepted(s) => stream::push_stream(s, source, out),
        Body::Confused | Body::Rejected => {}
    }
}

// Appends a whole message.
fn push_message(body: Body, own: Address, source: &[u8], out: &mut Cursor<'_>)
    ensures { Pushes out.old out.new (message_text own (content_by source.now body)) }
{
    lines::push_opening(own, out);
    lines::push_ipbcp(kind_of(body), out);
    push_body(body, source, out);
}

// Writes a message whose fields are in range, if it is not too long.
fn write_right(body: Body, own: Address, source: &[u8], out: &mut [u8]) -> Result<usize, Refusal>
    ensures { Puts (bounded most_written (message_text own (content_by source.now body))) out.old result out.new }
{
    let mut scratch = [0u8; SCRATCH];
    let mut written = Cursor::new(&mut scratch);
    push_message(body, own, source, &mut written);
    let n = written.at;
    if MOST_WRITTEN < n {
        return Err(Refusal::OutOfRange);
    }
    put_front(&scratch[..n], out)
}

// Writes the message with the own address in `o=` and `c=`. The texts of a stream are places in source.
pub fn write_message(
    body: Body,
    own: Address,
    source: &[u8],
    out: &mut [u8],
) -> Result<usize, Refusal>
    ensures { Puts (message_octets_in own (content_in source.now body)) out.old result out.new }
{
    if address::is_unicast(own) && ranges::right_body(body, source) {
        return write_right(body, own, source, out);
    }
    Err(Refusal::OutOfRange)
}
