// The codec list in a string, and the numbers that refuse a string: 1, 2 and 14.
ghost use Rattle.std.specs.Prelude.{◌≡◌};
ghost use Rattle.bat_match.specs.Private.{OneAtMost, OneListIs, TwoListsAre, lower};

use crate::list::FramedList;
use bat::framing::{contents, first_element, header_length};
use octets::Refusal;

// The list in s. (s has at most one element.)
fn only_list(s: &[u8]) -> Result<FramedList, Refusal>
    requires { OneAtMost s.now }
    ensures { OneListIs s.now result }
{
    let Ok(Some(f)) = first_element(s) else {
        return Err(Refusal::NoCodecList);
    };
    if f.identifier != 4 {
        return Err(Refusal::NoCodecList);
    }
    match bat_read::decode(4, contents(s, f)) {
        Ok(_) => Ok(FramedList {
            string: s,
            compatibility: f.compatibility,
            from: header_length(f),
        }),
        Err(_) => Err(Refusal::NoCodecList),
    }
}

// The list in s, or what refuses s: number 1, 2 or 14. More than one element, which `count` refuses by 3, is 14.
fn one_list(s: &[u8]) -> Result<FramedList, Refusal>
    ensures { OneListIs s.now result }
{
    match bat::framing::count(s, 1) {
        Ok(_) => only_list(s),
        Err(Refusal::TableTooShort) => Err(Refusal::NoCodecList),
        Err(e) => Err(e),
    }
}

// The one with the lower number.
fn lower(d: Refusal, e: Refusal) -> Refusal
    ensures { result ≡ lower d e }
{
    if e.number() < d.number() {
        return e;
    }
    d
}

// The lists in two strings, or what refuses them. The numbers are looked for in rising order, so the lower one refuses.
pub(crate) fn two_lists<'a>(
    leading: &'a [u8],
    other: &'a [u8],
) -> Result<(FramedList<'a>, FramedList<'a>), Refusal>
    ensures { TwoListsAre leading.now other.now result }
{
    let a = one_list(leading);
    let b = one_list(other);
    match a {
        Ok(l) => match b {
            Ok(o) => Ok((l, o)),
            Err(e) => Err(e),
        },
        Err(d) => match b {
            Ok(_) => Err(d),
            Err(e) => Err(lower(d, e)),
        },
    }
}
