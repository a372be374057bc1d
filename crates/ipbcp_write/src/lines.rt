// The lines that every message has.
ghost use Rattle.std.specs.Prelude.{◌≡◌, [], ◌∷◌};
ghost use Rattle.octets.specs.Text.{lf, cr};
ghost use Rattle.octets.specs.Append.{Pushes};
ghost use Rattle.sdp.specs.Written.{line_text, lines_text};
ghost use Rattle.ipbcp.specs.Types.{type_word};
ghost use Rattle.ipbcp.specs.Writing.{host_text, version_text, origin_text, session_text, connection_text, time_text, ipbcp_text};
ghost use Rattle.ipbcp_write.specs.Private.{host_start};

use address::Address;
use address::write::push_address;
use ipbcp::MessageType;
use octets::append::Cursor;

// Appends the end of a line.
pub(crate) fn push_end(out: &mut Cursor<'_>)
    ensures { Pushes out.old out.new (cr ∷ lf ∷ []) }
{
    out.push(b"\r\n");
}

// IN and the word of the address's family, each with a blank after it.
#[tactic(auto, unfolding(ipbcp::specs::Writing::family_word))]
fn host_start(own: Address) -> &'static [u8]
    ensures { result.now ≡ host_start own }
{
    match own {
        Address::V4(_) => b"IN IP4 ",
        Address::V6 { .. } => b"IN IP6 ",
    }
}

// Appends IN, the family and the address, and ends the line.
fn push_host(own: Address, out: &mut Cursor<'_>)
    ensures { Pushes out.old out.new (line_text (host_text own)) }
{
    out.push(host_start(own));
    push_address(own, out);
    push_end(out);
}

// Appends the lines v and o.
fn push_origin(own: Address, out: &mut Cursor<'_>)
    ensures { Pushes out.old out.new (lines_text (version_text ∷ origin_text own ∷ [])) }
{
    out.push(b"v=0\r\no=- 0 0 ");
    push_host(own, out);
}

// Appends the lines s and c.
fn push_connection(own: Address, out: &mut Cursor<'_>)
    ensures { Pushes out.old out.new (lines_text (session_text ∷ connection_text own ∷ [])) }
{
    out.push(b"s= \r\nc=");
    push_host(own, out);
}

// Appends the lines v, o, s and c.
pub(crate) fn push_opening(own: Address, out: &mut Cursor<'_>)
    ensures { Pushes out.old out.new (lines_text (version_text ∷ origin_text own ∷ session_text ∷ connection_text own ∷ [])) }
{
    push_origin(own, out);
    push_connection(own, out);
}

// The word of a type.
#[tactic(auto, unfolding(ipbcp::specs::Types::type_word))]
fn type_word(kind: MessageType) -> &'static [u8]
    ensures { result.now ≡ type_word kind }
{
    match kind {
        MessageType::Request => b"Request",
        MessageType::Accepted => b"Accepted",
        MessageType::Confused => b"Confused",
        MessageType::Rejected => b"Rejected",
    }
}

// Appends the lines t and ipbcp.
pub(crate) fn push_ipbcp(kind: MessageType, out: &mut Cursor<'_>)
    ensures { Pushes out.old out.new (lines_text (time_text ∷ ipbcp_text kind ∷ [])) }
{
    out.push(b"t=0 0\r\na=ipbcp:1 ");
    out.push(type_word(kind));
    push_end(out);
}
