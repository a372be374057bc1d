// Codecs looked for in a list.
ghost use Rattle.std.specs.Prelude.{◌≡◌};
ghost use Rattle.bat_match.specs.Matching.{has_octets};
ghost use Rattle.bat_match.specs.Private.{codecs_at, FirstCommon, starting_before};

use crate::list::FramedList;
use octets::words::equals;
use octets::{Refusal, Span};

// The place of the first codec of the leading list that the other list also has, if there is one: a walk over both lists, left at
// the first codec that is in both.
pub(crate) fn first_common(leading: FramedList, other: FramedList) -> Result<Span, Refusal>
    ensures { FirstCommon leading.entry.string.now leading.entry.from (codecs_at other.entry.string.now other.entry.from) result }
{
    let mut found = Err(Refusal::NoCommonCodec);
    'search: for c in leading.codecs() {
        let contents = c.contents();
        for d in other.codecs() {
            if equals(contents, d.contents()) {
                found = Ok(Span {
                    at: c.at,
                    len: c.length,
                });
                break 'search;
            }
        }
    }
    found
}

// Whether one of the codecs of a list has these contents.
pub(crate) fn has_codec(list: FramedList, contents: &[u8]) -> bool
    ensures { result ≡ has_octets contents.now (codecs_at list.entry.string.now list.entry.from) }
{
    list.codecs().any(|c| equals(contents, c.contents()))
}

// Whether one of the codecs of a list that start before `end` has these contents.
pub(crate) fn has_codec_before(list: FramedList, end: usize, contents: &[u8]) -> bool
    ensures { result ≡ has_octets contents.now (starting_before end (codecs_at list.entry.string.now list.entry.from)) }
{
    list.codecs()
        .take_while(|c| c.at < end)
        .any(|c| equals(contents, c.contents()))
}
