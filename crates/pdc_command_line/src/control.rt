//! The commands `stop` and `status`.

use crate::request::{Request, Status};
use crate::words::{Argument, CommandHelp, Form};
use clap::ArgMatches;

const ABOUT_STOP: &str = "Stop a node or the merger as after its last tick";

const LONG_STOP: &str =
    "Stops the run of `pdc node` or `pdc merge` that was started with --control PATH, and ends when the
run has ended. It prints the totals of the run, as the run itself does:
  taken=N refused=N published=N

The run ends as after its last tick, at most one tick later: it publishes what is due, stores the
mark, switches off the data of the PMUs that it asked, and writes the rest of the record. After
that you can start it again at once, with the same mark and the same PATH.

In these cases it prints the reason on standard error:
  status 1   no run answers at PATH, or what answers there refuses the request
  status 3   the run ended by a fault, which is printed, or it ended without an answer

A run under systemd starts again after this command: use `systemctl stop`, which calls it.

Example:
  pdc stop /run/pdc-node-a/control";

const ABOUT_STATUS: &str = "Print the counters of a node or the merger that runs";

const LONG_STATUS: &str =
    "Prints the counters of the run of `pdc node` or `pdc merge` that was started with --control PATH: the
lines that --every reports, without the time in front.
  taken=N refused=N published=N last=INSTANT unsent=N
    taken      data frames that were accepted
    refused    datagrams that were refused, followed by how many each cause refused
    published  rows that were published
    last       the instant that was published last
    unsent     frames that could not be sent, or not be kept for the sessions
Then comes one line for each PMU or node of which datagrams were refused, whose port received
datagrams from another address, or whose connections ended; one for each output to which frames
could not be sent; and at the merger one for each PMU whose blocks were left out.

With --json it prints one JSON object on one line with the same numbers. `causes` contains the causes
that refused datagrams; `streams` has all PMUs or nodes, `outputs` all further destinations.

It is answered after the next tick. In these cases it prints the reason on standard error:
  status 1   no run answers at PATH, or what answers there refuses the request
  status 3   there was no tick within three seconds, or no answer within ten

Examples:
  pdc status /run/pdc-node-a/control
  pdc status --json /run/pdc-node-a/control | jq .published";

/// The path that both take.
const PATH: Argument<'static> = Argument("PATH", Form::Word, "The control socket of the run");

/// The command `stop` and its help.
pub const STOP: CommandHelp<'static> = CommandHelp {
    name: "stop",
    full_name: "pdc stop",
    about: ABOUT_STOP,
    long: LONG_STOP,
    wanted: &[PATH],
};

/// The command `status` and its help.
pub const STATUS: CommandHelp<'static> = CommandHelp {
    name: "status",
    full_name: "pdc status",
    about: ABOUT_STATUS,
    long: LONG_STATUS,
    wanted: &[PATH, Argument("json", Form::Flag, "Print one JSON object")],
};

/// The request of `status` that these words make; `None` if a word is missing, which the parser refuses first.
pub fn status_request<'a>(matches: &ArgMatches<'a>) -> Option<Request<'a>> {
    let Some(path) = matches.get_str("PATH") else {
        return None;
    };
    Some(Request::Status(Status {
        path,
        is_json: matches.get_flag("json"),
    }))
}
