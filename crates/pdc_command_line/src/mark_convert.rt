//! The command `mark-convert`.

use crate::request::{MarkConvert, Request};
use crate::words::{Argument, CommandHelp, Form};
use clap::ArgMatches;

const ABOUT: &str = "Make a mark file of version 2 from one of version 1";

const LONG: &str =
    "Reads a mark file of version 1, which has 128 bytes, and makes a new file of version 2 from it. The
new file has the same id, data rate, start number and instant; its counts are 0. The old file stays
as it is.

Prints the number of starts and the instant up to which everything was published:
  start=1 floor=57478860001

In these cases it makes no file and ends with status 1:
  mark exists       the file NEW exists, and stays as it is
  M1 NoMark         OLD does not have 128 bytes
  M2 Damaged        OLD has no open slot
If it cannot read or make a file, it prints `device fault`; if a device fails after that, it prints
`M4 Device`. Both end it with status 3.

Example:
  pdc mark-convert a.mark a2.mark";

/// The command and its help.
pub const MARK_CONVERT: CommandHelp<'static> = CommandHelp {
    name: "mark-convert",
    full_name: "pdc mark-convert",
    about: ABOUT,
    long: LONG,
    wanted: &[
        Argument("OLD", Form::Word, "The file of version 1"),
        Argument("NEW", Form::Word, "The file to make"),
    ],
};

/// The request that these words make; `None` if a word is missing, which the parser refuses first.
pub fn mark_convert_request<'a>(matches: &ArgMatches<'a>) -> Option<Request<'a>> {
    let (Some(old), Some(new)) = (matches.get_str("OLD"), matches.get_str("NEW")) else {
        return None;
    };
    Some(Request::MarkConvert(MarkConvert { old, new }))
}
