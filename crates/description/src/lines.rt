// The lines, each by its letter; t is the value, after the letter and `=`.
ghost use Rattle.std.specs.Prelude.{◌≡◌, ◌<◌};
ghost use Rattle.octets.specs.Split.{has};
ghost use Rattle.description.specs.Draft.{needed, is_origin, address_of, connection_of, connection_line, is_time, skipped_letters};
ghost use Rattle.description.specs.Meaning.{preamble_by, preamble_in};

use crate::Preamble;
use address::Address;
use address::ipv4::read_ipv4;
use address::ipv6::read_ipv6;
use octets::spans::text;
use octets::words::{digit_run, equals};
use texts::cut;

// p with the needed line that follows n others, if that line is right.
#[tactic(auto, unfolding(crate::specs::Draft::needed, crate::specs::Draft::reached, crate::specs::Meaning::preamble_in, crate::specs::Meaning::preamble_by))]
pub(crate) fn needed(p: Preamble, n: u8, right: bool) -> Option<Preamble>
    requires { n < 5 }
    ensures { preamble_in result ≡ needed n right (preamble_by p) }
{
    (p.had == n && right).then_some(Preamble { had: n + 1, ..p })
}

// t has six tokens, the fourth IN, the fifth a family.
#[tactic(auto, using(crate::proofs::LineLaws::origins))]
pub(crate) fn is_origin(t: &[u8]) -> bool
    ensures { result ≡ is_origin t.now }
{
    let Some(tokens) = cut::<6>(t) else {
        return false;
    };
    let [_, _, _, net, family, _] = tokens;
    let family = text(t, family);
    equals(b"IN", text(t, net)) && (equals(b"IP4", family) || equals(b"IP6", family))
}

// The address s of the family that the word names.
#[tactic(auto, unfolding(crate::specs::Draft::address_of))]
fn address_of(family: &[u8], s: &[u8]) -> Option<Address>
    ensures { result ≡ address_of family.now s.now }
{
    if equals(b"IP4", family) {
        return read_ipv4(s);
    }
    if equals(b"IP6", family) {
        return read_ipv6(s);
    }
    None
}

// The address of a connection: t is IN, a family and an address.
#[tactic(auto, using(crate::proofs::LineLaws::connections))]
fn connection_of(t: &[u8]) -> Option<Address>
    ensures { result ≡ connection_of t.now }
{
    let [net, family, address] = cut::<3>(t)?;
    if equals(b"IN", text(t, net)) {
        return address_of(text(t, family), text(t, address));
    }
    None
}

// The preamble p with the line `c=` of t.
#[tactic(auto, using(crate::proofs::LineLaws::connection_lines))]
pub(crate) fn connection_line(p: Preamble, t: &[u8]) -> Option<Preamble>
    ensures { preamble_in result ≡ connection_line (preamble_by p) t.now }
{
    if p.had != 3 {
        return None;
    }
    let address = connection_of(t)?;
    Some(Preamble { had: 4, address })
}

// t is two runs of digits.
#[tactic(auto, using(crate::proofs::LineLaws::times))]
pub(crate) fn is_time(t: &[u8]) -> bool
    ensures { result ≡ is_time t.now }
{
    let Some(tokens) = cut::<2>(t) else {
        return false;
    };
    let [start, stop] = tokens;
    digit_run(text(t, start)) && digit_run(text(t, stop))
}

// Lines of this letter are skipped.
pub(crate) fn is_skipped_letter(letter: u8) -> bool
    ensures { result ≡ has letter skipped_letters }
{
    b"iuepbzkr".contains(&letter)
}
