// Reading a message as C calls it, by the crate `card_message_c`: what the benchmark measures.
#![tactic(auto)]

ghost use Rattle.std.specs.Prelude.{◌≡◌};
ghost use Rattle.ipbcp.specs.Reading.{read_message};
ghost use Rattle.card_message.specs.ForC.{reading_for_c};

use ipbcp::Message;

// The number that refuses m, or 256 for a version and type alone, or 1000 plus the port.
pub fn card_message_read(m: &[u8]) -> u32
    ensures { result ≡ reading_for_c (read_message m.now) }
{
    match ipbcp::read(m) {
        Err(e) => e.number() as u32,
        Ok(Message::Typed { .. }) => 256,
        Ok(Message::Described { description, .. }) => 1000 + description.stream.port as u32,
    }
}
