// The media line and its attributes.
ghost use Rattle.std.specs.Prelude.{[], ◌∷◌, ◌++◌, map};
ghost use Rattle.octets.specs.Text.{ascii, blank};
ghost use Rattle.octets.specs.Append.{Pushes, number_text};
ghost use Rattle.octets.specs.Spans.{text_of};
ghost use Rattle.sdp.specs.Written.{line_text, lines_text};
ghost use Rattle.media.specs.Stream.{fmtp_text, media_text, rtpmap_lines};
ghost use Rattle.media.specs.Meaning.{texts_by, stream_by};
ghost use Rattle.ipbcp.specs.Writing.{ptime_lines, stream_lines, attribute_lines};

use crate::lines::push_end;
use media::{Stream, Texts};
use octets::append::Cursor;
use octets::spans::text;

// Appends a text and a blank.
fn push_token(t: &[u8], out: &mut Cursor<'_>)
    ensures { Pushes out.old out.new (t.now ++ (blank ∷ [])) }
{
    out.push(t);
    out.push_octet(b' ');
}

// Appends what is left of a line, and its end.
fn push_rest(t: &[u8], out: &mut Cursor<'_>)
    ensures { Pushes out.old out.new (line_text t.now) }
{
    out.push(t);
    push_end(out);
}

// Appends the media line up to its port and the blank after that.
fn push_port(s: Stream, source: &[u8], out: &mut Cursor<'_>)
    ensures { Pushes out.old out.new (ascii "m=" ++ (text_of source.now s.media ++ (blank ∷ (number_text s.port ++ (blank ∷ []))))) }
{
    out.push(b"m=");
    push_token(text(source, s.media), out);
    out.push_number_then(s.port as u64, b' ');
}

// Appends transport and payload, and ends the line.
fn push_payload(s: Stream, source: &[u8], out: &mut Cursor<'_>)
    ensures { Pushes out.old out.new (line_text (text_of source.now s.transport ++ (blank ∷ number_text s.payload))) }
{
    push_token(text(source, s.transport), out);
    out.push_number(s.payload as u64);
    push_end(out);
}

// Appends the media line.
fn push_media(s: Stream, source: &[u8], out: &mut Cursor<'_>)
    ensures { Pushes out.old out.new (line_text (ascii "m=" ++ media_text (stream_by source.now s))) }
{
    push_port(s, source, out);
    push_payload(s, source, out);
}

// Appends the rtpmap line, if there is one.
fn push_rtpmap(s: Stream, source: &[u8], out: &mut Cursor<'_>)
    ensures { Pushes out.old out.new (lines_text (rtpmap_lines (stream_by source.now s))) }
{
    let t = text(source, s.rtpmap);
    if t.is_empty() {
        return;
    }
    out.push(b"a=rtpmap:");
    out.push_number_then(s.payload as u64, b' ');
    push_rest(t, out);
}

// Appends the fmtp line of a text.
fn push_fmtp(t: &[u8], out: &mut Cursor<'_>)
    ensures { Pushes out.old out.new (line_text (fmtp_text t.now)) }
{
    out.push(b"a=fmtp:");
    push_rest(t, out);
}

// Appends the fmtp lines.
fn push_fmtps(x: Texts, source: &[u8], out: &mut Cursor<'_>)
    ensures { Pushes out.old out.new (lines_text (map fmtp_text (texts_by source.now x))) }
{
    for sp in x.as_slice() {
        push_fmtp(text(source, *sp), out);
    }
}

// Appends the ptime line, if there is one.
fn push_ptime(n: u8, out: &mut Cursor<'_>)
    ensures { Pushes out.old out.new (lines_text (ptime_lines n)) }
{
    if n == 0 {
        return;
    }
    out.push(b"a=ptime:");
    out.push_number(n as u64);
    push_end(out);
}

// Appends the rtpmap, fmtp and ptime lines.
fn push_attributes(s: Stream, source: &[u8], out: &mut Cursor<'_>)
    ensures { Pushes out.old out.new (lines_text (attribute_lines (stream_by source.now s))) }
{
    push_rtpmap(s, source, out);
    push_fmtps(s.fmtp, source, out);
    push_ptime(s.ptime, out);
}

// Appends the media line and its attributes.
pub(crate) fn push_stream(s: Stream, source: &[u8], out: &mut Cursor<'_>)
    ensures { Pushes out.old out.new (lines_text (stream_lines (stream_by source.now s))) }
{
    push_media(s, source, out);
    push_attributes(s, source, out);
}
