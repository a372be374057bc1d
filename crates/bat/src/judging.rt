// What an unrecognised element asks for by its compatibility octet.
ghost use Rattle.std.specs.Prelude.{◌≡◌, ◌%◌, ◌/◌};
ghost use Rattle.bat.specs.Judging.{second_choice, outcome_of, notice_of, judgement, is_listed};
ghost use Rattle.bat.specs.JudgingMeaning.{outcome_number, judgement_in};

use crate::{Diagnostic, Judged, Outcome};

// The outcome with this number.
#[tactic(auto, unfolding(crate::specs::JudgingMeaning::outcome_number))]
fn numbered(n: u8) -> Outcome
    ensures { outcome_number result ≡ n % 4 }
{
    match n % 4 {
        0 => Outcome::PassOn,
        1 => Outcome::DiscardElement,
        2 => Outcome::DiscardData,
        _ => Outcome::Release,
    }
}

// The outcome of the second choice: what to do if passing on is not possible.
#[tactic(auto, unfolding(crate::specs::JudgingMeaning::outcome_number, crate::specs::Judging::second_choice))]
fn second_choice(n: u8) -> Outcome
    ensures { outcome_number result ≡ second_choice (n % 4) }
{
    if n % 4 == 0 {
        Outcome::Release
    } else {
        numbered(n)
    }
}

// What an element with the compatibility octet c asks for. `pass` says whether passing on is possible.
#[tactic(auto, unfolding(crate::specs::Judging::outcome_of))]
pub fn outcome(c: u8, pass: bool) -> Outcome
    ensures { outcome_number result ≡ outcome_of pass c }
{
    if c % 4 != 0 || pass {
        numbered(c)
    } else {
        second_choice(c / 16)
    }
}

// Whether an element with the compatibility octet c asks for notice.
#[tactic(auto, unfolding(crate::specs::Judging::notice_of))]
pub fn notice(c: u8, pass: bool) -> bool
    ensures { result ≡ notice_of pass c }
{
    if c % 4 != 0 || pass {
        c / 4 % 2 == 1
    } else {
        c / 64 % 2 == 1
    }
}

// The judgement of an unrecognised element.
pub fn judge(identifier: u8, c: u8, index: usize, pass: bool) -> Judged
    ensures { judgement_in result ≡ judgement pass identifier c index }
{
    Judged {
        outcome: outcome(c, pass),
        notice: notice(c, pass),
        diagnostic: Diagnostic {
            identifier: identifier,
            index: index,
        },
    }
}

// Whether an element's diagnostic is listed.
#[tactic(auto, unfolding(crate::specs::Judging::is_listed, crate::specs::JudgingMeaning::judgement_in, crate::specs::JudgingMeaning::outcome_number))]
pub fn is_listed(j: Judged) -> bool
    ensures { result ≡ is_listed (judgement_in j) }
{
    matches!(j.outcome, Outcome::DiscardElement | Outcome::DiscardData) && j.notice
}
