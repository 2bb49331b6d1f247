//! The command `listen`.

use crate::request::{Listen, Request};
use crate::words::{Argument, CommandHelp, Form, optional_number_of, short_number_of};
use crate::wrong::Wrong;
use clap::ArgMatches;

const ABOUT: &str = "Print the datagrams that arrive at a UDP port";

const LONG: &str =
    "Prints each datagram that arrives at PORT on 127.0.0.1 as one line of hexadecimal, which `pdc show`
can read. It flushes each line, so that you can pipe its output into another command. It ends after
COUNT datagrams; without COUNT it runs until you stop it.

If it cannot open the port, for example because another program uses it, it prints `device fault`
and ends with status 3.

Example, what the merger of examples/pair sends:
  pdc listen 4751 100 | pdc show";

/// The command and its help.
pub const LISTEN: CommandHelp<'static> = CommandHelp {
    name: "listen",
    full_name: "pdc listen",
    about: ABOUT,
    long: LONG,
    wanted: &[
        Argument("PORT", Form::Word, "The UDP port, 1 to 65535"),
        Argument(
            "COUNT",
            Form::Optional,
            "The number of datagrams after which it ends, 1 to 4294967295",
        ),
    ],
};

/// The request that these words make; `None` if a word is missing, which the parser refuses first.
///
/// # Errors
///
/// A word is not a number, or the number is out of its range.
pub fn listen_request<'a>(matches: &ArgMatches<'a>) -> Result<Option<Request<'a>>, Wrong<'a>> {
    let Some(port) = matches.get_str("PORT") else {
        return Ok(None);
    };
    let port = short_number_of("<PORT>", port, u16::MAX)?;
    let count = matches.get_str("COUNT");
    let count = optional_number_of("<COUNT>", count, u32::MAX)?;
    Ok(Some(Request::Listen(Listen { port, count })))
}
