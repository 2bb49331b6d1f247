//! The command `mark-forget`.

use crate::request::{MarkForget, Request};
use crate::words::{Argument, CommandHelp, Form};
use clap::ArgMatches;

const ABOUT: &str = "Make a copy of a mark file whose configuration counts are 0";

const LONG: &str =
    "Makes a new mark file with the id, data rate, start and floor of OLD, and with all counts 0. OLD
stays as it is. It prints what `pdc mark-show` prints of OLD, and what you give up.

Use it if a configuration count was too high once, for example because of a test device or a forged
frame. The mark keeps that count, and the node refuses the PMU's own configurations from then on as
C8 StaleCount. Once the new mark is in place of the old one, the node accepts them again. It
publishes no instant twice, because the new mark has the same start and floor.

You give up one promise, this once: that the adopted configuration counts of a PMU never fall. This
is safe if the node is stopped, no frame of an older configuration of any of its PMUs is still on
its way, and each PMU sends the configuration that it uses now. Both nodes and the merger need a
new mark: docs/TROUBLESHOOTING.md describes all the steps.

In these cases it makes no file and ends with status 1:
  mark exists       the file NEW exists, and stays as it is
  M1 NoMark         OLD does not have 256 bytes
  M2 Damaged        OLD has no open slot
  M6 OldMark        OLD is of version 1: see `pdc help mark-convert`
If it cannot open or make a file, for example because a node runs with OLD, it prints
`device fault`; if a device fails after that, it prints `M4 Device`. Both end it with status 3.

Example:
  pdc mark-forget a.mark a.new.mark";

/// The command and its help.
pub const MARK_FORGET: CommandHelp<'static> = CommandHelp {
    name: "mark-forget",
    full_name: "pdc mark-forget",
    about: ABOUT,
    long: LONG,
    wanted: &[
        Argument("OLD", Form::Word, "The mark file that has the counts"),
        Argument("NEW", Form::Word, "The file to make"),
    ],
};

/// The request that these words make; `None` if a word is missing, which the parser refuses first.
pub fn mark_forget_request<'a>(matches: &ArgMatches<'a>) -> Option<Request<'a>> {
    let (Some(old), Some(new)) = (matches.get_str("OLD"), matches.get_str("NEW")) else {
        return None;
    };
    Some(Request::MarkForget(MarkForget { old, new }))
}
