// Two codec lists matched (document 02, E1): the first codec of the leading list that the other list also has, and the
// list of the codecs that are in both, each once, written as an element.
#![tactic(auto)]

mod list;
mod lists;
mod search;
mod selection;

ghost use Rattle.std.specs.Prelude.{◌≡◌};
ghost use Rattle.bat_match.specs.Matching.{matching};
ghost use Rattle.bat_match.specs.Private.{codecs_at, FoundAt, ListsAre, Writes};
ghost use Rattle.bat_match.specs.Meaning.{leader, matching_led, choice_of, PartAt, PartBy, Chosen, Matches, for_c, MatchesForC, own_leads_of};

use crate::list::FramedList;
use bat::MOST_OCTETS;
use octets::spans::after;
use octets::{Refusal, Span};

// The most elements that a string can have, since an element has at least three octets.
const MOST_ELEMENTS: usize = MOST_OCTETS / 3;

// The place of the chosen codec's whole element in the leading list, and how many octets of the reduced list are written; or
// what refuses each.
#[derive(Clone, Copy)]
pub struct MatchAnswer {
    pub choice: Result<Span, Refusal>,
    pub reduced: Result<usize, Refusal>,
}

// The same for C. `refusal` is the number that refuses the two strings, or 4 if only the writing is refused. A field that
// does not apply is 0.
#[repr(C)]
#[derive(Clone, Copy)]
pub struct AnswerForC {
    pub refusal: u8,
    pub start: usize,
    pub length: usize,
    pub written: usize,
}

// Chooses the first codec of the leading list that the other list also has. The answer is the place of its whole element in
// `leading`, or what refuses the two: number 1, 2, 14 or 15.
pub fn choose(leading: &[u8], other: &[u8]) -> Result<Span, Refusal>
    ensures { result ≡ choice_of (matching leading.now other.now) }
{
    let (l, o) = lists::two_lists(leading, other)?;
    search::first_common(l, o)
}

// The part of s that begins at a place and has len octets; the empty part at its front if it has no such part.
fn part_at(s: &[u8], at: usize, len: usize) -> &[u8]
    ensures { PartAt s.entry at len result }
{
    if s.len() < at {
        return &s[0..0];
    }
    if s.len() - at < len {
        return &s[0..0];
    }
    let end = at + len;
    &s[at..end]
}

// The part of s that a choice names; for a refusal, whatever it is, or if s has no such part, the empty part at its front.
pub fn part_by<E: Copy>(s: &[u8], choice: Result<Span, E>) -> &[u8]
    ensures { PartBy s.entry choice result }
{
    match choice {
        Ok(p) => part_at(s, p.at, p.len),
        Err(_) => part_at(s, 0, 0),
    }
}

// The chosen codec's whole element, as the part of the leading list that holds it; if the two are refused, the empty part
// at the front of that list.
pub fn chosen_part<'a>(offered: &'a [u8], own: &'a [u8], own_leads: bool) -> &'a [u8]
    ensures { Chosen (leader own_leads own.entry offered.entry) (leader own_leads offered.entry own.entry) result }
{
    if own_leads {
        return part_by(own, choose(own, offered));
    }
    part_by(offered, choose(offered, own))
}

// Writes the reduced list of the two lists into out. Its first codec is the chosen one, at the place p.
fn put_reduced(
    leading: FramedList,
    other: FramedList,
    p: Span,
    out: &mut [u8],
) -> Result<usize, Refusal>
    requires lists_are { ListsAre leading.string.now other.string.now leading other }
    requires found_at { FoundAt leading.string.now leading.from (codecs_at other.string.now other.from) p }
    ensures { Writes (matching leading.entry.string.now other.entry.string.now) out.old result out.new }
{
    let mut flags = [0u8; MOST_ELEMENTS];
    let chosen = FramedList {
        string: leading.string,
        compatibility: leading.compatibility,
        from: p.at,
    };
    let n = selection::select_codecs(chosen, other, &mut flags);
    bat_write::write_selected(
        after(leading.string, p.at),
        &flags[0..n],
        leading.compatibility,
        out,
    )
}

// Matches two lists.
fn match_both(leading: FramedList, other: FramedList, out: &mut [u8]) -> MatchAnswer
    requires { ListsAre leading.string.now other.string.now leading other }
    ensures { Matches (matching leading.entry.string.now other.entry.string.now) out.old result out.new }
{
    let choice = search::first_common(leading, other);
    match choice {
        Ok(p) => MatchAnswer {
            choice: choice,
            reduced: put_reduced(leading, other, p, out),
        },
        Err(e) => MatchAnswer {
            choice: choice,
            reduced: Err(e),
        },
    }
}

// Matches two strings.
fn match_strings(leading: &[u8], other: &[u8], out: &mut [u8]) -> MatchAnswer
    ensures { Matches (matching leading.now other.now) out.old result out.new }
{
    match lists::two_lists(leading, other) {
        Ok((l, o)) => match_both(l, o, out),
        Err(e) => MatchAnswer {
            choice: Err(e),
            reduced: Err(e),
        },
    }
}

// Chooses a codec as `choose` does, and writes the reduced list into out: the codecs of the leading list that the other list
// also has, without repeats. `own_leads` says which list leads. The number that refuses the two strings (1, 2, 14 or 15)
// is answered for both; 4 only for the list. A refusal leaves out as it was.
pub fn match_lists(offered: &[u8], own: &[u8], own_leads: bool, out: &mut [u8]) -> MatchAnswer
    ensures { Matches (matching_led own_leads own.now offered.now) out.old result out.new }
{
    if own_leads {
        return match_strings(own, offered, out);
    }
    match_strings(offered, own, out)
}

// An answer as numbers.
fn for_c(m: MatchAnswer) -> AnswerForC
    ensures { result ≡ for_c m }
{
    match m.choice {
        Err(e) => AnswerForC {
            refusal: e.number(),
            start: 0,
            length: 0,
            written: 0,
        },
        Ok(p) => match m.reduced {
            Ok(n) => AnswerForC {
                refusal: 0,
                start: p.at,
                length: p.len,
                written: n,
            },
            Err(e) => AnswerForC {
                refusal: e.number(),
                start: p.at,
                length: p.len,
                written: 0,
            },
        },
    }
}

// `match_lists` as C calls it, by the crate `bat_match_c`. The own list leads unless own_leads is 0.
pub fn bat_match_codecs(offered: &[u8], own: &[u8], own_leads: u8, out: &mut [u8]) -> AnswerForC
    ensures { MatchesForC (matching_led (own_leads_of own_leads) own.now offered.now) out.old result out.new }
{
    for_c(match_lists(offered, own, own_leads != 0, out))
}
