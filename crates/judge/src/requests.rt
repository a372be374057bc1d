// Judging a peer's Request.
ghost use Rattle.std.specs.Prelude.{◌≡◌};
ghost use Rattle.media.specs.Meaning.{stream_by};
ghost use Rattle.configuration.specs.Meaning.{configuration_by};
ghost use Rattle.bearer.specs.Judging.{right_stream, right_request, nearest};
ghost use Rattle.bearer.specs.Meaning.{named_by, in_force_by};

use crate::addresses::same_family;
use bearer::Bearer;
use configuration::Config;
use configuration::codecs::names_any;
use ipbcp::Description;
use media::Stream;
use octets::spans::text;
use octets::words::equals;

// The stream s is for audio, over RTP/AVP, with a payload that is configured.
#[tactic(auto, unfolding(bearer::specs::Judging::right_stream, media::specs::Meaning::stream_by, configuration::specs::Meaning::configuration_by))]
fn right_stream(c: Config, s: Stream, m: &[u8]) -> bool
    ensures { result ≡ right_stream (configuration_by c) (stream_by m.now s) }
{
    equals(b"audio", text(m, s.media))
        && equals(b"RTP/AVP", text(m, s.transport))
        && names_any(c, s.payload, text(m, s.rtpmap))
}

// The Request that says d, whose texts are in m, is right: address and port are as in force, if a bearer is.
#[tactic(auto, using(crate::proofs::AddressLaws::equal_is), unfolding(bearer::specs::Judging::right_request, bearer::specs::Judging::unmoved, bearer::specs::Meaning::bearer_by, bearer::specs::Meaning::named_by, media::specs::Meaning::stream_by, configuration::specs::Meaning::configuration_by))]
pub fn right_request(c: Config, in_force: Option<&Bearer>, d: Description, m: &[u8]) -> bool
    ensures { result ≡ right_request (configuration_by c) (in_force_by in_force.entry) (named_by m.now d) }
{
    same_family(c.own, d.address)
        && right_stream(c, d.stream, m)
        && in_force.is_none_or(|b| b.address == d.address && b.stream.port == d.stream.port)
}

// The packet time in range that is nearest to n; 0, for none, stays 0. `clamp` would ask for a range that is not empty.
#[tactic(auto, unfolding(bearer::specs::Judging::nearest, configuration::specs::Meaning::configuration_by))]
pub fn nearest_time(c: Config, n: u8) -> u8
    ensures { result ≡ nearest (configuration_by c) n }
{
    if n == 0 {
        return 0;
    }
    if n < c.least {
        return c.least;
    }
    if c.most < n {
        return c.most;
    }
    n
}
