// From one element of the data to the next: what `store_elements` calls.
ghost use Rattle.std.specs.Prelude.{◌≡◌};
ghost use Rattle.bat_table.specs.Private.{step_at};

use crate::{Entry, NO_ENTRY, Step};
use bat::framing::{first_element, whole_length};
use octets::spans::after;

// The entry of the element at a place of the data, and the place after it. If no element can be framed there, an
// entry of no octets and the same place.
pub(crate) fn step_at(data: &[u8], at: usize) -> Step
    ensures { result ≡ step_at «data».now at }
{
    let Ok(Some(f)) = first_element(after(data, at)) else {
        return Step {
            entry: NO_ENTRY,
            next: at,
        };
    };
    let length = whole_length(f);
    Step {
        entry: Entry {
            identifier: f.identifier,
            start: at,
            length: length,
        },
        next: at + length,
    }
}
