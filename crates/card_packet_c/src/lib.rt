// A message read and written again in a tunnel packet, for C: the export of `card_packet`, with its clause.
#![tactic(auto)]

ghost use Rattle.ipbcp.specs.Reading.{read_message};
ghost use Rattle.card_packet.specs.Again.{Rewrites};

// Puts a packet at the front of out whose message says what m says, with m's address as the own address. The answer is its
// length, or 0 if m is a version and type alone, or octets::REFUSED plus the number that refuses m or the packet; then out
// stays as it was.
#[unsafe(no_mangle)]
pub extern "C" fn card_packet_rewrite(m: &[u8], out: &mut [u8]) -> usize
    ensures { Rewrites (read_message m.now) out.old result out.new }
{
    card_packet::card_packet_rewrite(m, out)
}
