//! The words of the command line.

use clap::error::ErrorKind;
use clap::{Arg, ArgAction, Command, Error};
use pdc_version::VERSION;
use std::alloc::{AllocError, Global};

const ABOUT: &str = "Check settings files, each by itself and against the others";

const LONG: &str =
    "Reads settings files as `pdc node` and `pdc merge` do, but opens no port and no mark. It prints a
line for each thing that is wrong or may not be intended:
  error    FILE: KEY: ..   it does not run, or not as intended
  warning  FILE: KEY: ..   it runs, but may not be intended
  note     FILE: KEY: ..   it is worth knowing
A file with the key `node` is the merger's; any other is a node's.

In each file it looks for a key that is missing, of the wrong type or out of its range; two ids that
must differ; a key that nothing reads, for which it names the nearest known key; a port that two
keys have; a port that accepts data from anyone; and settings that store each frame on the disk.

Between any two files it looks for ids that must differ, rates that differ and ports that both have.
For a node and the merger it also checks whether the merger takes the node, with the node's
TIME_BASE and at the port that the node sends to, or by TCP at the node's sessions; whether the
PMUs' sources are among the merger's, in the same order; whether the merger waits as long as the
node; and which node's data the merger prefers.

With --mark it also reads a mark file and checks that it belongs to the id and the rate of its
settings: `pdc node` would refuse another one. The first --mark is that of the first FILE, and so
on. A mark that is in use cannot be read: stop the node first.

The exit status is 0 if there is no error, 1 if there is one, and 3 if a file cannot be read.

Examples:
  pdc check /etc/pdc/a.toml
  pdc check a.toml b.toml m.toml
  pdc check a.toml --mark a.mark";

/// What is asked for.
#[derive(Drop)]
pub struct CheckCommand<'a> {
    /// The settings files.
    pub files: Vec<&'a str>,
    /// The mark files of the first of them, in their order.
    pub marks: Vec<&'a str>,
}

/// The command.
fn check<'a>(alloc: Global) -> Result<Command<'a>, AllocError> {
    let files = Arg::new(alloc, "FILE")
        .required(true)
        .num_args(1..)
        .action(ArgAction::Append)
        .help("Settings files of nodes and of the merger");
    let mark = Arg::new(alloc, "mark")
        .long("mark")
        .value_name("MARK")
        .action(ArgAction::Append)
        .help("The mark file of the first FILE; given again, of the second one, and so on");
    Command::new(alloc, "check")
        .bin_name("pdc check")?
        .display_name("pdc check")?
        .about(ABOUT)
        .long_about(LONG)
        .version(VERSION)
        .arg(files)?
        .arg(mark)
}

/// The program with its command.
fn pdc<'a>(alloc: Global) -> Result<Command<'a>, AllocError> {
    Command::new(alloc, "pdc")
        .about(ABOUT)
        .no_binary_name(true)
        .subcommand_required(true)
        .arg_required_else_help(true)
        .bin_name("pdc")?
        .subcommand(check(alloc)?)
}

/// There are no more marks than files.
fn few_marks(alloc: Global, asked: CheckCommand<'_>) -> Result<CheckCommand<'_>, Error> {
    if asked.marks.len() > asked.files.len() {
        let message = "there are more marks than settings files: give each --mark for one FILE";
        return Err(check(alloc)?.error(ErrorKind::ValueValidation, message)?);
    }
    Ok(asked)
}

/// What these words ask for.
///
/// # Errors
///
/// What `clap` reports: the help that was asked for, or what is wrong.
pub fn words_of<'a>(alloc: Global, words: &'a [String]) -> Result<CheckCommand<'a>, Error> {
    let matches = pdc(alloc)?.try_get_matches_from(words)?;
    let (mut files, mut marks) = (Vec::new(alloc), Vec::new(alloc));
    if let Some((_, inner)) = matches.subcommand() {
        files.extend_from_slice(inner.get_strs("FILE").unwrap_or(&[]))?;
        marks.extend_from_slice(inner.get_strs("mark").unwrap_or(&[]))?;
    }
    few_marks(alloc, CheckCommand { files, marks })
}
