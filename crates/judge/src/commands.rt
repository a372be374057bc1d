// Turning commands into Requests.
ghost use Rattle.std.specs.Prelude.{◌≡◌, true};
ghost use Rattle.configuration.specs.Configuration.{suits};
ghost use Rattle.configuration.specs.Meaning.{codec_by, configuration_by};
ghost use Rattle.judge.specs.Commands.{Commands};
ghost use Rattle.judge.specs.Private.{Offers};

use bearer::{MOST_OFFERED, Request};
use configuration::codecs::{entry_at, push_name, suits_entry};
use configuration::{Codec, Config, Format, none_or_in_range};
use media::Stream;
use octets::Span;
use octets::append::Cursor;

// The Request for the entry k: "audio", "RTP/AVP" and the name follow each other in its text.
fn offer(port: u16, k: Codec, payload: u8, ptime: u8) -> Request
    ensures { Offers port (codec_by k) payload ptime result }
{
    let mut text = [0u8; MOST_OFFERED];
    let mut written = Cursor::new(&mut text);
    written.push(b"audioRTP/AVP");
    let at = written.at;
    push_name(k, &mut written);
    let end = written.at;
    let audio = Span { at: 0, len: 5 };
    let rtp_avp = Span { at: 5, len: 7 };
    let name = Span {
        at: 12,
        len: end - at,
    };
    let stream = Stream {
        rtpmap: name,
        ptime,
        ..media::bare(audio, port, rtp_avp, payload)
    };
    Request { stream, text }
}

// The payload that a command names, which suits the entry k.
fn payload_for(k: Codec, payload: u16) -> u8
    requires { suits (codec_by k) payload ≡ true }
    ensures { result ≡ payload }
{
    match k.format {
        Format::Payload(n) => n,
        Format::Named(_) => payload as u8,
    }
}

// The Request of a command that names a codec entry, a payload and a packet time, if they suit the configuration.
pub fn request_for(c: Config, entry: u16, payload: u16, ptime: u16) -> Option<Request>
    ensures { Commands (configuration_by c) entry payload ptime result }
{
    let codec = entry_at(c, entry)?;
    if suits_entry(codec, payload) && none_or_in_range(c, ptime) {
        return Some(offer(c.port, codec, payload_for(codec, payload), ptime as u8));
    }
    None
}
