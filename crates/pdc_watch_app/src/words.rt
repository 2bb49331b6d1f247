//! The words of the command line.

use clap::error::ErrorKind;
use clap::{Arg, ArgAction, Command, Error};
use pdc_version::VERSION;
use std::alloc::{AllocError, Global};

const LONG: &str =
    "Serves a page at http://127.0.0.1:PORT/ that shows a pair at work: whether both nodes and the merger are alive, which PMU's data came
on which of the three streams, what it says, and whether both nodes published the same.

A.toml, B.toml and M.toml are the settings of node A, node B and the merger. The program connects to the session of each, at `address`
and `session_port` of the settings, and tries again each second if it cannot. It changes nothing in the pair, and runs until you stop
it. The page reads /data.json.

Example, beside examples/pair/run:
  pdc watch a.toml b.toml m.toml";

/// Where the page is, if nothing else is said.
const PORT: u16 = 8080;

/// What is asked for: three settings files, and where the page is to be.
#[derive(Clone, Copy)]
pub struct WatchCommand<'a> {
    pub first: &'a str,
    pub second: &'a str,
    pub merger: &'a str,
    pub port: u16,
}

/// A word that has to be there.
fn word<'a>(alloc: Global, name: &'a str, help: &'a str) -> Arg<'a> {
    Arg::new(alloc, name)
        .required(true)
        .action(ArgAction::Set)
        .help(help)
}

/// The command and its help.
fn command<'a>(alloc: Global) -> Result<Command<'a>, AllocError> {
    Command::new(alloc, "watch")
        .no_binary_name(true)
        .bin_name("pdc watch")?
        .display_name("pdc watch")?
        .about("Serve a page that shows a pair at work")
        .long_about(LONG)
        .version(VERSION)
        .arg(word(alloc, "A", "The settings file of node A"))?
        .arg(word(alloc, "B", "The settings file of node B"))?
        .arg(word(alloc, "M", "The settings file of the merger"))?
        .arg(
            Arg::new(alloc, "port")
                .long("port")
                .value_name("PORT")
                .action(ArgAction::Set)
                .help("The TCP port of the page on 127.0.0.1, 1 to 65535; left out, 8080"),
        )
}

/// What is wrong with a port.
fn no_port(alloc: Global, text: &str) -> Result<Error, AllocError> {
    let message = format!(in alloc;
        "invalid value '{text}' for '--port <PORT>': it must be a whole number from 1 to 65535"
    )?;
    let mut command = command(alloc)?;
    command.error(ErrorKind::ValueValidation, message.as_str())
}

/// The port that a text tells.
fn port_of(text: &str) -> Option<u16> {
    match text.parse::<u16>() {
        Ok(port) if port > 0 => Some(port),
        _ => None,
    }
}

/// What these words ask for.
///
/// # Errors
///
/// One is missing or too many, or the port is none; `--help` is told as an error of status 0.
pub fn words_of<'a>(alloc: Global, words: &'a [String]) -> Result<WatchCommand<'a>, Error> {
    let matches = command(alloc)?.try_get_matches_from(words)?;
    let port = match matches.get_str("port") {
        None => PORT,
        Some(text) => match port_of(text) {
            Some(port) => port,
            None => return Err(no_port(alloc, text)?),
        },
    };
    Ok(WatchCommand {
        first: matches.get_str("A").unwrap_or(""),
        second: matches.get_str("B").unwrap_or(""),
        merger: matches.get_str("M").unwrap_or(""),
        port,
    })
}
