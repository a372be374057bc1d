// What a detailed trace adds to the line of an event.
ghost use Rattle.octets.specs.Append.{Pushes};
ghost use Rattle.media.specs.Meaning.{stream_by};
ghost use Rattle.bearer.specs.Meaning.{bearer_by, in_force_by};
ghost use Rattle.trace_write.specs.Detail.{media_shown, attributes_shown, bearer_shown, force_shown, detail_text};

use address::write::push_address;
use bearer::Bearer;
use media::Stream;
use notation::{push_octets, push_texts};
use octets::append::Cursor;
use octets::spans::text;

// Appends port, media, transport and payload of the stream s, whose texts are in m.
fn push_media(m: &[u8], s: Stream, out: &mut Cursor<'_>)
    ensures { Pushes out.old out.new (media_shown (stream_by m.now s)) }
{
    out.push_octet(b';');
    out.push_number(s.port as u64);
    out.push_octet(b';');
    out.push(text(m, s.media));
    out.push_octet(b';');
    out.push(text(m, s.transport));
    out.push_octet(b';');
    out.push_number(s.payload as u64);
}

// Appends rtpmap, fmtp and packet time.
fn push_attributes(m: &[u8], s: Stream, out: &mut Cursor<'_>)
    ensures { Pushes out.old out.new (attributes_shown (stream_by m.now s)) }
{
    out.push_octet(b';');
    push_octets(text(m, s.rtpmap), out);
    out.push_octet(b';');
    push_texts(m, s.fmtp, out);
    out.push_octet(b';');
    out.push_number(s.ptime as u64);
}

// Appends a bearer.
fn push_bearer(b: &Bearer, out: &mut Cursor<'_>)
    ensures { Pushes out.old out.new (bearer_shown (bearer_by b.now)) }
{
    push_address(b.address, out);
    push_media(&b.text, b.stream, out);
    push_attributes(&b.text, b.stream, out);
}

// Appends the bearer, or `-` if none is in force.
fn push_force(in_force: Option<&Bearer>, out: &mut Cursor<'_>)
    ensures { Pushes out.old out.new (force_shown (in_force_by in_force.entry)) }
{
    match in_force {
        Some(b) => push_bearer(b, out),
        None => out.push_octet(b'-'),
    }
}

// Appends the octets that were written, and the bearer, or that none is in force.
pub fn push_detail(s: &[u8], in_force: Option<&Bearer>, out: &mut Cursor<'_>)
    ensures { Pushes out.old out.new (detail_text s.now (in_force_by in_force.entry)) }
{
    out.push_octet(b' ');
    push_octets(s, out);
    out.push_octet(b' ');
    push_force(in_force, out);
}
