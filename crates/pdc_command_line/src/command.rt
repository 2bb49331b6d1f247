//! The commands of `pdc`, and their help.

use crate::control::{STATUS, STOP, status_request};
use crate::listen::{LISTEN, listen_request};
use crate::mark_convert::{MARK_CONVERT, mark_convert_request};
use crate::mark_forget::{MARK_FORGET, mark_forget_request};
use crate::mark_init::{MARK_INIT, mark_init_request};
use crate::mark_show::MARK_SHOW;
use crate::play::{PLAY, play_request};
use crate::pmu::{PMU, pmu_request};
use crate::request::Request;
use crate::running::{MERGE, NODE, running};
use crate::show::{SHOW, show_form};
use crate::words::{CommandHelp, command_of};
use crate::wrong::{Wrong, error_of};
use clap::{ArgMatches, Command, Error};
use pdc_version::VERSION;
use std::alloc::{AllocError, Global};

const ABOUT: &str =
    "A synchrophasor concentrator for frames of IEEE C37.118.2-2011 in 16-bit formats";

const EXAMPLES: &str = "Examples:
  pdc show < captured.hex     print what captured frames contain
  pdc play a.toml b.toml m.toml < script.txt
                              play events on two nodes and a merger
  pdc mark-init a.mark 201 50 make the mark file of node 201 at 50 frames per second
  pdc mark-convert old new    make a mark file of version 2 from one of version 1
  pdc mark-show a.mark        print what a mark file contains
  pdc mark-forget old new     make a copy of a mark file whose configuration counts are 0
  pdc check a.toml b.toml m.toml
                              check settings files before you run them
  pdc node a.toml a.mark 3000 run a node for 3000 ticks
  pdc merge m.toml m.mark 3000
                              run the merger for 3000 ticks
  pdc stop a.control          stop a run that was started with --control a.control
  pdc status a.control        print the counters of that run
  pdc pmu 11 50 3000 4811     simulate PMU 11 at 50 frames per second
  pdc listen 4751 | pdc show  print what the frames that arrive at a UDP port contain
  pdc watch a.toml b.toml m.toml
                              show the pair on a web page
  pdc replay a.record.*       replay a recorded run and compare the results
  pdc explain a.record.* 2026-11-24T12:03:04.580Z
                              explain what happened to each PMU at an instant
  pdc help show               print the full help of a command
  pdc help settings           print each key of a settings file

Exit status: 0 done, 1 input was refused, 2 wrong arguments, 3 a device failed or memory ran out";

/// The program without its commands.
fn program<'a>(alloc: Global) -> Result<Command<'a>, AllocError> {
    Command::new(alloc, "pdc")
        .about(ABOUT)
        .version(VERSION)
        .after_help(EXAMPLES)
        .no_binary_name(true)
        .subcommand_required(true)
        .arg_required_else_help(true)
        .bin_name("pdc")
}

/// The program with one more command.
fn with<'a>(
    alloc: Global,
    program: Result<Command<'a>, AllocError>,
    told: &CommandHelp<'a>,
) -> Result<Command<'a>, AllocError> {
    program?.subcommand(command_of(alloc, told)?)
}

/// The program with the commands that read and make files, in the order of its help.
fn with_files<'a>(alloc: Global) -> Result<Command<'a>, AllocError> {
    let pdc = with(alloc, program(alloc), &SHOW);
    let pdc = with(alloc, pdc, &PLAY);
    let pdc = with(alloc, pdc, &MARK_INIT);
    let pdc = with(alloc, pdc, &MARK_CONVERT);
    let pdc = with(alloc, pdc, &MARK_SHOW);
    with(alloc, pdc, &MARK_FORGET)
}

/// The program with all its commands: those that run on the network come last.
fn pdc<'a>(alloc: Global) -> Result<Command<'a>, AllocError> {
    let pdc = with(alloc, with_files(alloc), &NODE);
    let pdc = with(alloc, pdc, &MERGE);
    let pdc = with(alloc, pdc, &STOP);
    let pdc = with(alloc, pdc, &STATUS);
    let pdc = with(alloc, pdc, &PMU);
    with(alloc, pdc, &LISTEN)
}

/// The request of a command with this name that takes no number, from the words behind it.
fn plain_request_of<'a>(name: &str, words: &ArgMatches<'a>) -> Option<Request<'a>> {
    match name {
        "show" => Some(Request::Show(show_form(words))),
        "play" => play_request(words),
        "mark-convert" => mark_convert_request(words),
        "mark-show" => words.get_str("FILE").map(Request::MarkShow),
        "mark-forget" => mark_forget_request(words),
        "stop" => words.get_str("PATH").map(Request::Stop),
        "status" => status_request(words),
        _ => None,
    }
}

/// The request of the command with this name, from the words behind it.
fn request_of<'a>(name: &str, words: &ArgMatches<'a>) -> Result<Option<Request<'a>>, Wrong<'a>> {
    match name {
        "mark-init" => Ok(mark_init_request(words)?.map(Request::MarkInit)),
        "node" => Ok(running(words)?.map(Request::Node)),
        "merge" => Ok(running(words)?.map(Request::Merge)),
        "pmu" => pmu_request(words),
        "listen" => listen_request(words),
        _ => Ok(plain_request_of(name, words)),
    }
}

/// What is wrong with the words of the command with this name, as `clap` reports it.
fn refused(alloc: Global, name: &str, wrong: &Wrong<'_>) -> Result<Error, AllocError> {
    match name {
        "mark-init" => error_of(alloc, &MARK_INIT, wrong),
        "node" => error_of(alloc, &NODE, wrong),
        "merge" => error_of(alloc, &MERGE, wrong),
        "pmu" => error_of(alloc, &PMU, wrong),
        // the last one that takes a number
        _ => error_of(alloc, &LISTEN, wrong),
    }
}

/// The request of the words that the parser has read.
fn asked_of<'a>(alloc: Global, matches: &ArgMatches<'a>) -> Result<Option<Request<'a>>, Error> {
    let Some((name, words)) = matches.subcommand() else {
        return Ok(None);
    };
    match request_of(name, words) {
        Ok(request) => Ok(request),
        Err(wrong) => Err(refused(alloc, name, &wrong)?),
    }
}

/// The request that the words after the program's name make; `None` if no command is named, which the parser
/// refuses first.
///
/// # Errors
///
/// What `clap` reports: the help that was asked for, or what is wrong.
pub fn parse<'a>(alloc: Global, words: &'a [String]) -> Result<Option<Request<'a>>, Error> {
    let matches = pdc(alloc)?.try_get_matches_from(words)?;
    asked_of(alloc, &matches)
}
