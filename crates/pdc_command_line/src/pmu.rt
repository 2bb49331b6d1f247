//! The command `pmu`.
ghost use Rattle.std.specs.Prelude.{◌<◌, ◌≤◌};
ghost use Rattle.pdc_command_line.specs.declared.request.TheConstants.{MAX_RATE};

use crate::request::{MAX_PLACES, MAX_RATE, MAX_SECONDS, PortOrHost, Request, Simulated};
use crate::words::{Argument, CommandHelp, Form, number_of, optional_number_of, short_number_of};
use crate::wrong::Wrong;
use arrayvec::ArrayVec;
use clap::ArgMatches;
use pdc_frame::{MAX_ID, StreamId};

const ABOUT: &str = "Simulate a PMU: send its configuration and data to UDP ports, or over TCP";

const LONG: &str =
    "Sends the frames of a simulated PMU, so that you can try a node. They go to each PORT on 127.0.0.1,
or to another place HOST:PORT. It first sends one configuration (count 1, one phasor, TIME_BASE
1000000), then COUNT data frames, one for each instant as the clock reaches it. The phasor counts
0, 1, 2, .. up to 32767, and then from 0 again.

ID is the stream id, RATE the number of frames per second. With --config-every it sends the
configuration again every SECONDS seconds, so that a node that starts later accepts its data too.

With --grid it simulates a PMU at one bus of a grid, which is the same grid for all ids. It sends
three voltages and three currents of 50 Hz, with a load that switches every minute and a swing of
0.3 Hz between the buses with odd ids and those with even ids, and the load's breaker as a digital
word.

With --tcp it listens at a TCP port, as most PMUs do, and serves up to 4 consumers. It answers the
commands of the standard, and sends data to each consumer that has switched data on.

Example, PMU 11 for a minute at 50 frames per second, to the ports of two nodes:
  pdc pmu 11 50 3000 4811 4911
Example, PMU 12, which waits for a consumer to ask:
  pdc pmu 12 50 3000 --tcp 0.0.0.0:4712";

/// The command and its help.
pub const PMU: CommandHelp<'static> = CommandHelp {
    name: "pmu",
    full_name: "pdc pmu",
    about: ABOUT,
    long: LONG,
    wanted: &[
        Argument("ID", Form::Word, "The stream id, 1 to 65534"),
        Argument(
            "RATE",
            Form::Word,
            "The data rate, 1 to 240 frames per second",
        ),
        Argument(
            "COUNT",
            Form::Word,
            "The number of data frames, 1 to 4294967295",
        ),
        Argument(
            "PORT",
            Form::UpToSixteen,
            "Up to 16 UDP ports, each 1 to 65535 or HOST:PORT; at least one without --tcp",
        ),
        Argument(
            "tcp",
            Form::Option("PORT"),
            "Serve up to 4 consumers at this port of 127.0.0.1 or ADDRESS:PORT",
        ),
        Argument(
            "config-every",
            Form::Option("SECONDS"),
            "Send the configuration again every SECONDS seconds, 1 to 86400",
        ),
        Argument(
            "grid",
            Form::Flag,
            "Simulate one bus of a grid, instead of one phasor that counts",
        ),
    ],
};

/// Where else a PMU is to be found, and when its configuration goes out again.
#[derive(Clone, Copy)]
struct Aims<'a> {
    tcp: Option<PortOrHost<'a>>,
    config_every: Option<u32>,
}

/// How often a PMU sends, and what it is called.
#[derive(Clone, Copy)]
struct Beat {
    id: StreamId,
    rate: u16,
    count: u32,
    ghost some_rate: { 0 < rate },
    ghost rate_fits: { rate ≤ MAX_RATE },
}

/// The place that a word says: a port of 127.0.0.1, or with a colon one elsewhere.
fn place_of<'a>(name: &'static str, word: &'a str) -> Result<PortOrHost<'a>, Wrong<'a>> {
    if word.as_bytes().contains(&b':') {
        return Ok(PortOrHost::At(word));
    }
    match short_number_of(name, word, u16::MAX) {
        Ok(port) => Ok(PortOrHost::Port(port)),
        Err(wrong) => Err(wrong),
    }
}

/// Appends the places that these words say.
fn add_places<'a>(
    words: &[&'a str],
    places: &mut ArrayVec<PortOrHost<'a>, MAX_PLACES>,
) -> Result<(), Wrong<'a>> {
    for word in words {
        let place = place_of("[PORT]...", word)?;
        if places.try_push(place).is_err() {
            return Err(Wrong::TooManyPorts);
        }
    }
    Ok(())
}

/// The TCP port at which it serves.
fn tcp<'a>(matches: &ArgMatches<'a>) -> Result<Option<PortOrHost<'a>>, Wrong<'a>> {
    match matches.get_str("tcp") {
        Some(word) => Ok(Some(place_of("--tcp <PORT>", word)?)),
        None => Ok(None),
    }
}

/// It sends somewhere, or serves.
fn some_place<'a>(is_there_one: bool) -> Result<(), Wrong<'a>> {
    if is_there_one {
        Ok(())
    } else {
        Err(Wrong::NoPort)
    }
}

/// After how many seconds its configuration is sent again.
fn config_every<'a>(matches: &ArgMatches<'a>) -> Result<Option<u32>, Wrong<'a>> {
    let text = matches.get_str("config-every");
    optional_number_of("--config-every <SECONDS>", text, MAX_SECONDS)
}

/// Where it serves, and when its configuration goes out again. The places that it sends to are appended.
fn aims_of<'a>(
    matches: &ArgMatches<'a>,
    places: &mut ArrayVec<PortOrHost<'a>, MAX_PLACES>,
) -> Result<Aims<'a>, Wrong<'a>> {
    add_places(matches.get_strs("PORT").unwrap_or(&[]), places)?;
    let tcp = tcp(matches)?;
    some_place(!places.is_empty() || tcp.is_some())?;
    let config_every = config_every(matches)?;
    Ok(Aims { tcp, config_every })
}

/// The id, rate and count that these words write.
fn beat_of<'a>(id: &'a str, rate: &'a str, count: &'a str) -> Result<Beat, Wrong<'a>> {
    let id = short_number_of("<ID>", id, MAX_ID)?;
    let rate = short_number_of("<RATE>", rate, MAX_RATE)?;
    let count = number_of("<COUNT>", count, u32::MAX)?;
    let id = StreamId { value: id };
    Ok(Beat { id, rate, count })
}

/// The PMU that sends so, and what else these words ask of it.
fn simulated<'a>(beat: Beat, matches: &ArgMatches<'a>) -> Result<Simulated<'a>, Wrong<'a>> {
    let mut places = ArrayVec::new();
    let aims = aims_of(matches, &mut places)?;
    Ok(Simulated {
        id: beat.id,
        rate: beat.rate,
        count: beat.count,
        places,
        tcp: aims.tcp,
        config_every: aims.config_every,
        is_grid: matches.get_flag("grid"),
    })
}

/// The request that these words make; `None` if a word is missing, which the parser refuses first.
///
/// # Errors
///
/// A word is not a number, or the number is out of its range.
pub fn pmu_request<'a>(matches: &ArgMatches<'a>) -> Result<Option<Request<'a>>, Wrong<'a>> {
    let (Some(id), Some(rate), Some(count)) = (
        matches.get_str("ID"),
        matches.get_str("RATE"),
        matches.get_str("COUNT"),
    ) else {
        return Ok(None);
    };
    let simulated = simulated(beat_of(id, rate, count)?, matches)?;
    Ok(Some(Request::Pmu(simulated)))
}
