// Comparing addresses.
ghost use Rattle.std.specs.Prelude.{◌≡◌};
ghost use Rattle.bearer.specs.Judging.{same_family};

use address::Address;

// Both are of the same family.
#[tactic(auto, unfolding(bearer::specs::Judging::same_family))]
pub fn same_family(a: Address, b: Address) -> bool
    ensures { result ≡ same_family a b }
{
    matches!(
        (a, b),
        (Address::V4(_), Address::V4(_)) | (Address::V6 { .. }, Address::V6 { .. })
    )
}
