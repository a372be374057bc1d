// Elements read and judged.
#![tactic(auto)]

pub mod constructors;
mod simple;

ghost use Rattle.std.specs.Prelude.{◌≡◌, ℕ, ◌≤◌, max, List, drop, Ok, Some};
ghost use Rattle.std.proofs.Math.Option.{some};
ghost use Rattle.bat.specs.Framing.{front};
ghost use Rattle.bat.specs.Values.{decoding};
ghost use Rattle.bat.specs.Judging.{finding, judged_data};
ghost use Rattle.bat.specs.FramingMeaning.{element_in, front_in};
ghost use Rattle.bat.specs.ValueMeaning.{decoding_in};
ghost use Rattle.bat.specs.JudgingMeaning.{finding_in, data_number, told_by, told_of};
ghost use Rattle.bat_read.specs.Examining.{examine, examined_in, Listing, listings, listings_in};
ghost use Rattle.bat_read.specs.Private.{index_in, data_asked_in, gravest, own_in, own_of};

use bat::framing::{contents, first_element, header_length, whole_length};
use bat::{DataOutcome, Diagnostic, Frame, Judged, Outcome, Taken, Unframed, Unrecognised, Value};
use octets::Refusal;
use octets::spans::after;

// An element at the front of a slice, and the finding on it: its value, or the judgement of an unrecognised one.
#[derive(Clone, Copy)]
pub struct Examined {
    pub frame: Frame,
    pub finding: Result<Value, Judged>,
}

// A listed diagnostic, and the place in the data after its element.
#[derive(Clone, Copy)]
pub struct Listed {
    pub diagnostic: Diagnostic,
    pub next: usize,
}

// What the contents of an element with this identifier are read as.
pub fn decode(identifier: u8, contents: &[u8]) -> Result<Value, Unrecognised>
    ensures { decoding_in contents.now result ≡ some (decoding identifier contents.now) }
{
    match identifier {
        1 => simple::action(contents),
        2 => simple::backbone(contents),
        3 => simple::address(contents),
        4 => constructors::codec_list(contents),
        5 => simple::single(contents),
        6 => simple::report(contents),
        7 => simple::characteristics(contents),
        8 => simple::control(contents),
        9 => simple::tunnelling(contents),
        10 => simple::unit(contents),
        11 => constructors::signal(contents),
        12 => simple::capability(contents),
        13 => simple::indicators(contents),
        14 => simple::signal_type(contents),
        15 => simple::duration(contents),
        _ => Err(Unrecognised { inner: None }),
    }
}

// The index of an unrecognised element's diagnostic; n octets are before its contents.
fn index(decoding: Result<Value, Unrecognised>, n: usize) -> usize
    requires { index_in n decoding ≤ 131327 }
    ensures { result ≡ index_in n decoding }
{
    match decoding {
        Ok(_) => 0,
        Err(u) => match u.inner {
            None => 0,
            Some(d) => n + d,
        },
    }
}

// The finding on the element f at the front of s.
fn judge_frame(s: &[u8], f: Frame, pass: bool) -> Result<Value, Judged>
    requires { front_in s.now (Ok (Some f)) ≡ some (front s.now) }
    ensures { finding_in (element_in s.now f).contents result ≡ some (finding pass (element_in s.now f)) }
{
    let decoding = decode(f.identifier, contents(s, f));
    let Ok(value) = decoding else {
        let at = index(decoding, header_length(f));
        return Err(bat::judging::judge(f.identifier, f.compatibility, at, pass));
    };
    Ok(value)
}

// The element at the front of s, if s is not empty, and the finding on it. `pass` says whether passing on is possible.
pub fn examine_first(s: &[u8], pass: bool) -> Result<Option<Examined>, Unframed>
    ensures { examined_in s.now result ≡ some (examine pass s.now) }
{
    let Some(f) = first_element(s)? else {
        return Ok(None);
    };
    Ok(Some(Examined {
        frame: f,
        finding: judge_frame(s, f, pass),
    }))
}

// The outcome that an element asks for the data as a whole.
fn asks(finding: Result<Value, Judged>) -> DataOutcome
    ensures { data_number result ≡ data_asked_in finding }
{
    match finding {
        Ok(_) => DataOutcome::Neither,
        Err(j) => match j.outcome {
            Outcome::PassOn => DataOutcome::Neither,
            Outcome::DiscardElement => DataOutcome::Neither,
            Outcome::DiscardData => DataOutcome::DiscardAll,
            Outcome::Release => DataOutcome::ReleaseAll,
        },
    }
}

// The graver of two outcomes.
fn graver(a: DataOutcome, b: DataOutcome) -> DataOutcome
    ensures { data_number result ≡ max (data_number a) (data_number b) }
{
    match a {
        DataOutcome::ReleaseAll => a,
        DataOutcome::Neither => b,
        DataOutcome::DiscardAll => match b {
            DataOutcome::ReleaseAll => b,
            DataOutcome::DiscardAll => b,
            DataOutcome::Neither => a,
        },
    }
}

// The outcome of the data as a whole, as far as it can be framed.
fn outcome(data: &[u8], pass: bool) -> DataOutcome
    ensures { data_number result ≡ gravest pass «data».now }
{
    let mut worst = DataOutcome::Neither;
    let mut rest = data;
    while let Ok(Some(x)) = examine_first(rest, pass) {
        worst = graver(worst, asks(x.finding));
        rest = after(rest, whole_length(x.frame));
    }
    worst
}

// The answer to application data, with a table of so many entries. `pass` says whether passing on is possible.
pub fn judge_data(data: &[u8], entries: usize, pass: bool) -> Result<Taken, Refusal>
    ensures { told_by result ≡ told_of (judged_data pass entries «data».now) }
{
    let count = bat::framing::count(data, entries)?;
    Ok(Taken {
        count: count,
        outcome: outcome(data, pass),
    })
}

// The diagnostic that an element lists, by the finding on it.
fn lists(finding: Result<Value, Judged>) -> Option<Diagnostic>
    ensures { (n : ℕ) (ls : List Listing) → own_in result n ls ≡ own_of finding n ls }
{
    match finding {
        Ok(_) => None,
        Err(j) => {
            if bat::judging::is_listed(j) {
                return Some(j.diagnostic);
            }
            None
        }
    }
}

// The first listed diagnostic of the data's elements from a place on. `pass` says whether passing on is possible.
// It goes as far as the data can be framed, and is for data that `judge_data` has taken: refused data lists
// nothing.
pub fn next_listed(data: &[u8], from: usize, pass: bool) -> Option<Listed>
    ensures { listings_in pass «data».now result ≡ listings pass from (drop from «data».now) }
{
    let mut at = from;
    while let Ok(Some(x)) = examine_first(after(data, at), pass) {
        at += whole_length(x.frame);
        if let Some(d) = lists(x.finding) {
            return Some(Listed {
                diagnostic: d,
                next: at,
            });
        }
    }
    None
}
