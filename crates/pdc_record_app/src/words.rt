//! The words of the command line.

use clap::error::ErrorKind;
use clap::{Arg, ArgAction, ArgMatches, Command, Error};
use pdc_explain::{Selection, wanted_of};
use pdc_version::VERSION;
use std::alloc::{AllocError, Global};

const ABOUT: &str = "Play the record of a life again, and explain it";

const LONG_REPLAY: &str =
    "Plays a record again. A node, or the merger, begins as the record says. It is given each datagram, tick and pop of the record, and each
of its answers, published frames and layouts is compared with the recorded one.

FILE.. are the files of a record in their order, as `a.record.*`, and those of later lives. If all are the same it prints
  12000345 steps, 239998 frames: as recorded
and ends with status 0. Otherwise it prints the first difference, with its number and both sides, and ends with status 1. If steps are
missing in the record it stops there, with status 1. It reads a file that is cut off up to the cut, and reports that.

You can give files of node A, node B and the merger M together, in this order, or of two of the three. It replays each record, and
prints for each instant which of them had which block:
  57478860001 2006-06-06T07:00:00.020Z  11 A B M  12 A . M
A point means that the row has no block of the PMU, a dash that there is no row. Counts follow the names if they differ. At the end it
prints that all agree on every block that is present under one count; or, with status 1, the first two that do not.

--frames prints the layouts and frames in hexadecimal, for `pdc show`; everything else then goes to standard error.
--plain also plays the record of one life on a plain program, which is written another way and proved by itself. That program looks
at the whole list of steps for each rule, so it is for short records, of at most 4000 steps.

Examples:
  pdc replay a.record.*
  pdc replay a.record.* b.record.* m.record.*
  pdc replay --frames a.record.* | pdc show";

const LONG_EXPLAIN: &str =
    "Explains from a record what happened at an instant. A line for each PMU says whether its block was shown, and why not. Further lines say
when the row opened, what it waited for, at which tick it closed and when its frame went out. At the merger the line of a PMU says
which node's block was shown. Times are in UTC: of a datagram, when it came; of all else, when it was written down.

FILE.. are the files of a record in their order; the first ones may be gone. You can give the files of several nodes and of the merger
together: each record is explained by itself, below a line that says whose it is. INSTANT is the number of the instant, as `pdc show`
prints it, or its time, as 2026-11-24T12:03:04.580Z.

--absent lists each instant in which a block is absent, with its cause, and at the end how often each cause was. Consecutive instants
with the same causes share a line. It also lists instants between rows that have no row, with what came of each PMU, and reports when
the node was held up and no tick came about them.
--delays prints for each PMU how many milliseconds after its instant 10, 50, 90, 99 and 99.9 of a hundred frames came, the greatest
delay, and the `wait` that would have kept all but one in a thousand. Delays are negative if a PMU's clock runs ahead, and so is a span in
which the clock of the record was set back. Three columns say what the PMU adds, counted over the instants with data of two PMUs or more:
for how many in a hundred of them its data came last, and how many milliseconds after all other data, for 50 and 99 of a hundred of
these. At the merger a line is a node's.

Examples:
  pdc explain a.record.* 2026-11-24T12:03:04.580Z
  pdc explain a.record.* --absent
  pdc explain a.record.* --delays";

/// What is asked of `replay`.
#[derive(Drop)]
pub struct Replayed<'a> {
    pub files: Vec<&'a str>,
    /// The frames are printed.
    pub frames: bool,
    /// It is played on the plain program too.
    pub plain: bool,
}

/// What `explain` is to tell.
#[derive(Clone, Copy)]
pub enum Question {
    Instants(Selection),
    Delays,
}

/// What is asked of `explain`.
#[derive(Drop)]
pub struct Explained<'a> {
    pub files: Vec<&'a str>,
    pub question: Question,
}

/// What is asked for.
#[derive(Drop)]
pub enum RecordCommand<'a> {
    Replay(Replayed<'a>),
    Explain(Explained<'a>),
}

/// A choice: its name, and what help says of it.
type Choice = (&'static str, &'static str);

/// A command as its help tells it.
#[derive(Clone, Copy)]
struct CommandText<'a> {
    /// Its name,
    name: &'a str,
    /// and behind that of the program.
    full_name: &'a str,
    /// What it does, in a line,
    about: &'a str,
    /// and at length.
    long: &'a str,
    /// Its words, one or more.
    words: Choice,
    /// Its choices, in this order.
    choices: &'a [Choice],
}

const REPLAY: CommandText<'static> = CommandText {
    name: "replay",
    full_name: "pdc replay",
    about: "Play records again, and compare each answer and each frame",
    long: LONG_REPLAY,
    words: ("FILE", "The files of the record, in their order"),
    choices: &[
        ("frames", "Print the layouts and frames in hexadecimal"),
        ("plain", "Play it on the plain program too"),
    ],
};

const EXPLAIN: CommandText<'static> = CommandText {
    name: "explain",
    full_name: "pdc explain",
    about: "Explain from a record what happened at an instant",
    long: LONG_EXPLAIN,
    words: (
        "FILE.. INSTANT",
        "The files of the record, in their order, and the instant",
    ),
    choices: &[
        ("absent", "List the instants with an absent block"),
        ("delays", "Print how late the data of each PMU comes"),
    ],
};

/// The words that have to be there, one or more.
fn many<'a>(alloc: Global, words: &Choice) -> Arg<'a> {
    let (name, help) = *words;
    Arg::new(alloc, name)
        .required(true)
        .num_args(1..)
        .action(ArgAction::Append)
        .help(help)
}

/// A choice.
fn flag<'a>(alloc: Global, choice: &Choice) -> Arg<'a> {
    let (name, help) = *choice;
    Arg::new(alloc, name)
        .long(name)
        .action(ArgAction::SetTrue)
        .help(help)
}

/// The command, as `clap` reads it.
fn command_of<'a>(alloc: Global, told: &CommandText<'a>) -> Result<Command<'a>, AllocError> {
    let mut command = Command::new(alloc, told.name)
        .bin_name(told.full_name)?
        .display_name(told.full_name)?
        .about(told.about)
        .long_about(told.long)
        .version(VERSION)
        .arg(many(alloc, &told.words))?;
    for choice in told.choices {
        command = command.arg(flag(alloc, choice))?;
    }
    Ok(command)
}

/// The program without its commands.
fn program<'a>(alloc: Global) -> Result<Command<'a>, AllocError> {
    Command::new(alloc, "pdc")
        .about(ABOUT)
        .no_binary_name(true)
        .subcommand_required(true)
        .arg_required_else_help(true)
        .bin_name("pdc")
}

/// The program with one more command.
fn with<'a>(
    alloc: Global,
    program: Result<Command<'a>, AllocError>,
    told: &CommandText<'a>,
) -> Result<Command<'a>, AllocError> {
    program?.subcommand(command_of(alloc, told)?)
}

/// The program with its commands.
fn pdc<'a>(alloc: Global) -> Result<Command<'a>, AllocError> {
    let pdc = with(alloc, program(alloc), &REPLAY);
    with(alloc, pdc, &EXPLAIN)
}

/// The words that were given for this name.
fn given<'a>(
    alloc: Global,
    matches: &ArgMatches<'a>,
    name: &str,
) -> Result<Vec<&'a str>, AllocError> {
    let mut words = Vec::new(alloc);
    words.extend_from_slice(matches.get_strs(name).unwrap_or(&[]))?;
    Ok(words)
}

/// What is wrong with the words of `explain`.
fn wrong(alloc: Global, message: &str) -> Result<Error, AllocError> {
    command_of(alloc, &EXPLAIN)?.error(ErrorKind::ValueValidation, message)
}

/// The instant that a word tells.
fn instant_of(alloc: Global, word: Option<&str>) -> Result<Selection, Error> {
    match word.and_then(wanted_of) {
        Some(wanted) => Ok(wanted),
        None => Err(wrong(
            alloc,
            "an instant must follow the files: its number, or its time as 2026-11-24T12:03:04.580Z",
        )?),
    }
}

/// What `explain` is to tell. Without a choice the last word is an instant, and is taken from the words.
fn question_of(
    alloc: Global,
    matches: &ArgMatches<'_>,
    words: &mut Vec<&str>,
) -> Result<Question, Error> {
    match (matches.get_flag("absent"), matches.get_flag("delays")) {
        (true, true) => Err(wrong(alloc, "--absent and --delays cannot be given together")?),
        (true, false) => Ok(Question::Instants(Selection::All)),
        (false, true) => Ok(Question::Delays),
        (false, false) => Ok(Question::Instants(instant_of(alloc, words.pop())?)),
    }
}

/// There are files.
fn some_files(alloc: Global, files: &[&str]) -> Result<(), Error> {
    if files.is_empty() {
        return Err(wrong(alloc, "the files of a record must come before the instant")?);
    }
    Ok(())
}

/// What is asked of `explain`.
fn explained_of<'a>(alloc: Global, matches: &ArgMatches<'a>) -> Result<Explained<'a>, Error> {
    let mut files = given(alloc, matches, "FILE.. INSTANT")?;
    let question = question_of(alloc, matches, &mut files)?;
    some_files(alloc, &files)?;
    Ok(Explained { files, question })
}

/// What is asked of `replay`.
fn replayed_of<'a>(alloc: Global, matches: &ArgMatches<'a>) -> Result<Replayed<'a>, AllocError> {
    Ok(Replayed {
        files: given(alloc, matches, "FILE")?,
        frames: matches.get_flag("frames"),
        plain: matches.get_flag("plain"),
    })
}

/// What is asked of the command with this name.
fn asked_of<'a>(
    alloc: Global,
    name: &str,
    matches: &ArgMatches<'a>,
) -> Result<RecordCommand<'a>, Error> {
    match name {
        "explain" => Ok(RecordCommand::Explain(explained_of(alloc, matches)?)),
        _ => Ok(RecordCommand::Replay(replayed_of(alloc, matches)?)),
    }
}

/// What these words ask for.
///
/// # Errors
///
/// What `clap` has to say: the help that was asked for, or what is wrong.
pub fn words_of<'a>(alloc: Global, words: &'a [String]) -> Result<RecordCommand<'a>, Error> {
    let matches = pdc(alloc)?.try_get_matches_from(words)?;
    match matches.subcommand() {
        Some((name, inner)) => asked_of(alloc, name, inner),
        None => asked_of(alloc, "replay", &matches),
    }
}
