//! The commands `node` and `merge`.

use crate::request::{MAX_RECORD_SIZE, MAX_SECONDS, RECORD_SIZE, Record, Running};
use crate::words::{Argument, CommandHelp, Form, optional_number_of};
use crate::wrong::Wrong;
use clap::ArgMatches;

const ABOUT_NODE: &str =
    "Run a node: align the streams of PMUs and send one frame for each instant";

const LONG_NODE: &str =
    "Runs a node. The frames of each PMU arrive as UDP datagrams at the port that the settings name for
it, or over TCP from the place that they name. The node aligns them by their time tags, and sends
one data frame for each instant to 127.0.0.1 at `out_port`. It sends a configuration at each change,
and again after every `layout_every` ticks.

SETTINGS is a TOML file, MARK the mark file that `pdc mark-init` made for this node. Each run stores
its own start number in MARK, and publishes no instant before MARK covers it. So the instants that
the node publishes strictly rise, whenever it dies and however often you start it again.

It runs for TICKS ticks, one per frame time, then prints this line and ends:
  taken=N refused=N published=N
The line counts data frames that were accepted, datagrams that were refused, and rows that were
published. Without TICKS the node runs until you stop it. After a fault it prints only the fault.

The node reports on standard error, with the time at the front of each line: how it begins, each
layout that it adopts, a PMU that is silent for 5 seconds or whose data has no configuration, and a
port that it no longer reads. With --quiet it reports only faults. With --every it also reports its
counters every SECONDS seconds: the three above, the instant that it published last, how many frames
could not be sent, and how many datagrams each cause refused, in all and for each PMU. If nobody
reads these lines, the run goes on: the node drops lines and reports how many.

With --record it writes a record to FILE.START.000001 and the files that follow: each datagram with
its time and its answer, each tick, and each frame that it sends. START is the start number, which
rises at each run, so that no file is overwritten. `pdc replay` checks the record, and `pdc explain`
explains why a block is absent. The run does not wait for the disk: if the disk is too slow, the
record has a gap, and a line reports it. If a file cannot be written, a new one is tried every 5
seconds. --record-keep counts the files of this run alone. --record-lives counts runs, this one
included: at its start it removes the files of older runs of this node beside FILE, and nothing else.

With --control it makes a Unix socket at PATH that only its own user can use. `pdc stop PATH` ends
the run as after its last tick, and `pdc status PATH` prints its counters. A signal ends the run too,
but without its totals, without switching off the PMUs that it asked, and without the last second of
the record. The socket is removed at the end. One that a run left behind which was killed is taken
over; if a run answers there, or PATH is a file that is not a socket, the node does not start.

Consumers ask for the header, the configuration and the data over TCP at `session_port`, with the
commands of the standard. A consumer that has data off and sends nothing for a minute is
disconnected, which frees its place.

The node prints faults on standard error. These end it with status 1: S1 Toml, S2 Range and
S3 DoubledId of the settings; M1 NoMark, M2 Damaged, M3 OtherOwner, M5 StartsUsedUp and M6 OldMark
of the mark. These end it with status 3: `device fault` if it cannot open a file or a port, another
process has the mark, a file of the record exists already, it cannot make the control socket, or it
cannot read the clock; and H1 SourceFault, H2 SinkFault, H3 NoMemory and M4 Device, which stop a run.
If the system does not send a frame, only its reader loses it: the node counts the frame and goes on.

Example, a minute at 50 frames per second:
  pdc node a.toml a.mark 3000";

const ABOUT_MERGE: &str = "Run the merger: join the streams of two nodes into one";

const LONG_MERGE: &str =
    "Runs the merger. The frames of nodes A and B arrive as UDP datagrams at the ports that the settings
name for them. The merger sends one data frame for each instant to 127.0.0.1 at `out_port`. If one
node fails, no reader downstream notices.

SETTINGS is a TOML file with two tables `node`, MARK the mark file that `pdc mark-init` made for the
merger. It runs for TICKS ticks or until you stop it. It prints what `pdc node` prints, and has the
same options, sessions and faults: see `pdc help node`.

Example, a minute at 50 frames per second:
  pdc merge m.toml m.mark 3000";

/// The words, options and flags of both.
const WANTED: &[Argument<'static>] = &[
    Argument("SETTINGS", Form::Word, "The settings file"),
    Argument("MARK", Form::Word, "The mark file"),
    Argument(
        "TICKS",
        Form::Optional,
        "The number of ticks to run, 1 to 4294967295; without it, it runs until you stop it",
    ),
    Argument(
        "every",
        Form::Option("SECONDS"),
        "Report counters on standard error every SECONDS seconds, 1 to 86400",
    ),
    Argument(
        "quiet",
        Form::Flag,
        "Report only faults, and counters if --every asks for them",
    ),
    Argument(
        "record",
        Form::Option("FILE"),
        "Record the run in FILE.START.000001 and the files that follow",
    ),
    Argument(
        "record-size",
        Form::Beside("MEBIBYTES", "record"),
        "The greatest size of each record file, 1 to 65536; default 64",
    ),
    Argument(
        "record-keep",
        Form::Beside("FILES", "record"),
        "Keep only this many of the last record files of this run; default all",
    ),
    Argument(
        "record-lives",
        Form::Beside("LIVES", "record"),
        "Keep only the record files of this many last runs, this one included; default all",
    ),
    Argument(
        "control",
        Form::Option("PATH"),
        "Listen at a Unix socket for `pdc stop PATH` and `pdc status PATH`",
    ),
];

/// The command `node` and its help.
pub const NODE: CommandHelp<'static> = CommandHelp {
    name: "node",
    full_name: "pdc node",
    about: ABOUT_NODE,
    long: LONG_NODE,
    wanted: WANTED,
};

/// The command `merge` and its help.
pub const MERGE: CommandHelp<'static> = CommandHelp {
    name: "merge",
    full_name: "pdc merge",
    about: ABOUT_MERGE,
    long: LONG_MERGE,
    wanted: WANTED,
};

/// The record that is asked for.
fn record_of<'a>(matches: &ArgMatches<'a>) -> Result<Option<Record<'a>>, Wrong<'a>> {
    let size = matches.get_str("record-size");
    let name = "--record-size <MEBIBYTES>";
    let size = optional_number_of(name, size, MAX_RECORD_SIZE)?;
    let keep = matches.get_str("record-keep");
    let name = "--record-keep <FILES>";
    let keep = optional_number_of(name, keep, u32::MAX)?;
    let lives = matches.get_str("record-lives");
    let name = "--record-lives <LIVES>";
    let lives = optional_number_of(name, lives, u32::MAX)?;
    match matches.get_str("record") {
        Some(name) => Ok(Some(Record {
            name,
            size: size.unwrap_or(RECORD_SIZE),
            keep,
            lives,
        })),
        None => Ok(None),
    }
}

/// The run of `node` or `merge` that these words ask for; `None` if a word is missing, which the parser refuses first.
///
/// # Errors
///
/// A word is not a number, or the number is out of its range.
pub fn running<'a>(matches: &ArgMatches<'a>) -> Result<Option<Running<'a>>, Wrong<'a>> {
    let (Some(settings), Some(mark)) = (matches.get_str("SETTINGS"), matches.get_str("MARK")) else {
        return Ok(None);
    };
    let ticks = matches.get_str("TICKS");
    let ticks = optional_number_of("[TICKS]", ticks, u32::MAX)?;
    let every = matches.get_str("every");
    let every = optional_number_of("--every <SECONDS>", every, MAX_SECONDS)?;
    Ok(Some(Running {
        settings,
        mark,
        ticks,
        every,
        is_quiet: matches.get_flag("quiet"),
        record: record_of(matches)?,
        control: matches.get_str("control"),
    }))
}
