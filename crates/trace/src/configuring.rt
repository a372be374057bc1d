// The lines that configure the endpoint.
ghost use Rattle.std.specs.Prelude.{◌≡◌, not, true};
ghost use Rattle.octets.specs.Chain.{when};
ghost use Rattle.octets.specs.Append.{Pushes};
ghost use Rattle.configuration.specs.Meaning.{configuration_by, config_inside};
ghost use Rattle.endpoint.specs.Step.{new_endpoint};
ghost use Rattle.trace_read.specs.Configuring.{general_in, codec_in};
ghost use Rattle.trace.specs.Trace.{line_of, configuring, no_codec, first_effect, line_effect, ending};
ghost use Rattle.trace.specs.Meaning.{Does};
ghost use Rattle.trace.specs.Private.{Goes, Keeps};

use crate::Session;
use crate::events::run;
use configuration::Config;
use configuration::codecs::entry_at;
use endpoint::Endpoint;
use octets::append::Cursor;
use trace_read::configure::{is_codec_line, read_codec_line, read_general};
use trace_write::lines::{push_header, push_refused_line};

// An endpoint with this configuration, to which nothing has happened. The check of `Endpoint::new` is not used: each line has been
// checked when it came.
fn fresh(config: Config) -> Endpoint
    ensures { result ≡ new_endpoint config }
{
    Endpoint::new(config).endpoint
}

// Whether there is a codec entry.
fn has_codec(config: Config) -> bool
    ensures { result ≡ not (no_codec (configuration_by config)) }
{
    entry_at(config, 1).is_some()
}

// The session after a line that gives this configuration. With none the configuration is refused.
fn keep(given: Option<Config>, out: &mut Cursor<'_>) -> Session
    ensures { Keeps given out.old out.new result }
{
    match given {
        Some(config) => Session::Configuring(config),
        None => {
            push_refused_line(out);
            Session::Stopped
        }
    }
}

// The first line, which must be the `G` line.
pub(crate) fn open(line: &[u8], whole: bool, out: &mut Cursor<'_>) -> Session
    ensures { Goes true (when whole (general_in line.now)) out.old out.new result }
{
    if whole {
        return keep(read_general(line), out);
    }
    keep(None, out)
}

// A `K` line.
fn add(config: Config, line: &[u8], whole: bool, out: &mut Cursor<'_>) -> Session
    ensures { Goes (config_inside config) (when whole (codec_in (configuration_by config) line.now)) out.old out.new result }
{
    if whole {
        return keep(read_codec_line(config, line), out);
    }
    keep(None, out)
}

// The first event, which is given to a fresh endpoint.
fn begin(
    config: Config,
    detailed: bool,
    line: &[u8],
    whole: bool,
    room: &mut [u8],
    out: &mut Cursor<'_>,
) -> Session
    ensures { Does (config_inside config)
        (first_effect detailed (configuration_by config) (line_of line.now whole) room.old)
        room.new out.old out.new result }
{
    push_header(out);
    run(&fresh(config), 0, detailed, line, whole, room, out)
}

// A line after the `G` line: a `K` line, or the first event.
pub(crate) fn configure(
    config: Config,
    detailed: bool,
    line: &[u8],
    whole: bool,
    room: &mut [u8],
    out: &mut Cursor<'_>,
) -> Session
    ensures { Does (config_inside config)
        (line_effect detailed (configuring (configuration_by config)) (line_of line.now whole) room.old)
        room.new out.old out.new result }
{
    if is_codec_line(line) {
        return add(config, line, whole, out);
    }
    if has_codec(config) {
        return begin(config, detailed, line, whole, room, out);
    }
    keep(None, out)
}

// Appends what is printed for a configuration that no event follows.
pub(crate) fn close(config: Config, out: &mut Cursor<'_>)
    ensures { Pushes out.old out.new (ending (configuring (configuration_by config))) }
{
    if has_codec(config) {
        push_header(out);
    } else {
        push_refused_line(out);
    }
}
