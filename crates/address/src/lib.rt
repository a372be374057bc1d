// IP addresses: text to value, value to text.
#![tactic(auto)]

pub mod ipv4;
pub mod ipv6;
pub mod write;

ghost use Rattle.std.specs.Prelude.{◌≡◌};
ghost use Rattle.address.specs.Kinds.{is_unicast, if_unicast};

// An address: of 32 bits, or the two halves of 128 bits.
#[derive(Clone, Copy, Debug, PartialEq, Eq)]
pub enum Address {
    V4(u32),
    V6 { high: u64, low: u64 },
}

// Dividing by these powers of two takes out the first number or octet of an address, or a group.
const POWER_24: u32 = 1 << 24;

const POWER_32: u64 = 1 << 32;

const POWER_48: u64 = 1 << 48;

const POWER_56: u64 = 1 << 56;

// The address is unicast.
pub fn is_unicast(a: Address) -> bool
    ensures { result ≡ is_unicast a }
{
    match a {
        Address::V4(n) => {
            let first = n / POWER_24;
            1 <= first && first <= 223
        }
        Address::V6 { high, low } => {
            if high / POWER_56 == 255 {
                return false;
            }
            if high != 0 {
                return true;
            }
            low != 0
        }
    }
}

// The address, if it is unicast.
fn if_unicast(a: Address) -> Option<Address>
    ensures { result ≡ if_unicast a }
{
    is_unicast(a).then_some(a)
}
