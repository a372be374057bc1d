// Two codec lists matched, for C: what include/bat_match.h declares. The clauses are those of `bat_match`.
#![tactic(auto)]

ghost use Rattle.bat_match.specs.Meaning.{matching_led, MatchesForC, own_leads_of};

use bat_match::AnswerForC;

// Chooses the first codec of the leading list that the other list also has, and writes the list of the codecs that are
// in both, each once. The own list leads unless own_leads is 0.
#[unsafe(no_mangle)]
pub extern "C" fn bat_match_codecs(
    offered: &[u8],
    own: &[u8],
    own_leads: u8,
    out: &mut [u8],
) -> AnswerForC
    ensures { MatchesForC (matching_led (own_leads_of own_leads) own.now offered.now) out.old result out.new }
{
    bat_match::bat_match_codecs(offered, own, own_leads, out)
}
