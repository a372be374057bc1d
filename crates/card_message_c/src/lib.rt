// Reading a message, for C: the export of `card_message`, with its clause.
#![tactic(auto)]

ghost use Rattle.std.specs.Prelude.{◌≡◌};
ghost use Rattle.ipbcp.specs.Reading.{read_message};
ghost use Rattle.card_message.specs.ForC.{reading_for_c};

// The number that refuses m, or 256 for a version and type alone, or 1000 plus the port.
#[unsafe(no_mangle)]
pub extern "C" fn card_message_read(m: &[u8]) -> u32
    ensures { result ≡ reading_for_c (read_message m.now) }
{
    card_message::card_message_read(m)
}
