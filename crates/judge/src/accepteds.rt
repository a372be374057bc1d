// Judging an Accepted.
ghost use Rattle.std.specs.Prelude.{◌≡◌};
ghost use Rattle.media.specs.Meaning.{stream_by};
ghost use Rattle.configuration.specs.Meaning.{configuration_by};
ghost use Rattle.bearer.specs.Judging.{same_offer, right_accepted};
ghost use Rattle.bearer.specs.Meaning.{request_by, named_by, in_force_by};

use crate::addresses::same_family;
use bearer::{Bearer, Request};
use configuration::{Config, none_or_in_range};
use ipbcp::Description;
use media::Stream;
use octets::spans::text;
use octets::words::equals;

// Media, transport, payload and rtpmap of s are as in o; the texts of s are in m, those of o in offer.
#[tactic(auto, unfolding(bearer::specs::Judging::same_offer, media::specs::Meaning::stream_by))]
fn same_stream(o: Stream, offer: &[u8], s: Stream, m: &[u8]) -> bool
    ensures { result ≡ same_offer (stream_by offer.now o) (stream_by m.now s) }
{
    equals(text(offer, o.media), text(m, s.media))
        && equals(text(offer, o.transport), text(m, s.transport))
        && o.payload == s.payload
        && equals(text(offer, o.rtpmap), text(m, s.rtpmap))
}

// The Accepted that says d, whose texts are in m, is right for the Request q: the address is as in force, if a bearer is.
#[tactic(auto, using(crate::proofs::AddressLaws::equal_is), unfolding(bearer::specs::Judging::right_accepted, bearer::specs::Judging::unmoved_address, bearer::specs::Meaning::bearer_by, bearer::specs::Meaning::named_by, bearer::specs::Meaning::request_by, media::specs::Meaning::stream_by, configuration::specs::Meaning::configuration_by))]
pub fn right_accepted(
    c: Config,
    in_force: Option<&Bearer>,
    q: Request,
    d: Description,
    m: &[u8],
) -> bool
    ensures { result ≡ right_accepted (configuration_by c) (in_force_by in_force.entry) (request_by q) (named_by m.now d) }
{
    same_family(c.own, d.address)
        && same_stream(q.stream, &q.text, d.stream, m)
        && none_or_in_range(c, u16::from(d.stream.ptime))
        && in_force.is_none_or(|b| b.address == d.address)
}
