//! The command `mark-init`.
ghost use Rattle.std.specs.Prelude.{IfErr, IfNone, IfOk, IfSome};
ghost use Rattle.clap.specs.Matches.{found_of};
ghost use Rattle.pdc_command_line.specs.MarkInit.{AsksFor, HasWrongNumber, LacksWord};

use crate::request::{MAX_RATE, MarkInit};
use crate::words::{Argument, CommandHelp, Form, short_number_of};
use crate::wrong::Wrong;
use clap::ArgMatches;
use pdc_frame::{MAX_ID, StreamId};

const ABOUT: &str = "Make the mark file of a node or a merger";

const LONG: &str =
    "Makes a mark file, in which a node or a merger keeps what it must remember across a stop, so that it
never publishes an instant twice: the number of its starts, and the instant up to which everything
was published.

Make one for each node and one for the merger, once, before its first start. If the file exists, the
command leaves it as it is, prints `mark exists` and ends with status 1. If it cannot make the file,
it prints `device fault` and ends with status 3.

Example:
  pdc mark-init /var/lib/pdc/a.mark 201 50";

/// The command and its help.
pub const MARK_INIT: CommandHelp<'static> = CommandHelp {
    name: "mark-init",
    full_name: "pdc mark-init",
    about: ABOUT,
    long: LONG,
    wanted: &[
        Argument("FILE", Form::Word, "The file to make"),
        Argument("ID", Form::Word, "The id of the node or merger, 1 to 65534"),
        Argument(
            "RATE",
            Form::Word,
            "The data rate, 1 to 240 frames per second",
        ),
    ],
};

/// The request that these words make; `None` if a word is missing, which the parser refuses first.
///
/// # Errors
///
/// A word is not a number, or the number is out of its range.
pub fn mark_init_request<'a>(matches: &ArgMatches<'a>) -> Result<Option<MarkInit<'a>>, Wrong<'a>>
    ensures asked { IfOk result (λ asked. IfSome asked (AsksFor (found_of matches.now))) }
    ensures missing { IfOk result (λ asked. IfNone asked (LacksWord (found_of matches.now))) }
    ensures wrong { IfErr result (λ _. HasWrongNumber (found_of matches.now)) }
{
    let (Some(file), Some(id), Some(rate)) = (
        matches.get_str("FILE"),
        matches.get_str("ID"),
        matches.get_str("RATE"),
    ) else {
        return Ok(None);
    };
    let id = short_number_of("<ID>", id, MAX_ID)?;
    let rate = short_number_of("<RATE>", rate, MAX_RATE)?;
    let id = StreamId { value: id };
    Ok(Some(MarkInit { file, id, rate }))
}
