//! The program `pdc`.
#![tactic(auto)]

mod complaint;
mod controlling;
mod listen;
mod loading;
mod mark_convert;
mod mark_init;
mod owner;
mod play;
mod pmu;
mod running;

use controlling::{run_status_command, run_stop_command};
use listen::run_listen_command;
use mark_convert::{mark_convert_status, report_mark_convert};
use mark_init::{mark_init_status, report_mark_init};
use pdc_any_mark::{run_mark_forget_command, run_mark_show_command};
use pdc_command_line::{MarkConvert, MarkInit, Request, ShowForm, parse};
use pdc_export::{Format, run_export_command};
use pdc_mark::{convert_mark, make_mark};
use pdc_show::run_show_command;
use play::run_play_command;
use pmu::run_pmu_command;
use running::{run_merge_command, run_node_command};
use std::io;
use std::process::ExitCode;

/// The exit statuses.
const DONE: u8 = 0;

const REFUSED: u8 = 1;

const WRONG_ARGUMENTS: u8 = 2;

const FAILED: u8 = 3;

fn run_mark_init_command(rt: &HostRuntime, request: &MarkInit) -> io::Result<u8> {
    match make_mark(rt, request.file, request.id.value, request.rate) {
        Ok(()) => Ok(DONE),
        Err(fault) => {
            report_mark_init(rt, &fault, request)?;
            Ok(mark_init_status(&fault))
        }
    }
}

fn run_mark_convert_command(rt: &HostRuntime, request: &MarkConvert) -> io::Result<u8> {
    match convert_mark(rt, request.old, request.new) {
        Ok((start, floor)) => {
            println!(rt; "start={start} floor={floor}")?;
            Ok(DONE)
        }
        Err(fault) => {
            report_mark_convert(rt, &fault, request)?;
            Ok(mark_convert_status(&fault))
        }
    }
}

fn run_show(rt: &HostRuntime, form: ShowForm) -> io::Result<u8> {
    let alloc = rt.alloc();
    match form {
        ShowForm::Lines => run_show_command(rt, alloc),
        ShowForm::Json => run_export_command(rt, alloc, Format::Json),
        ShowForm::Csv => run_export_command(rt, alloc, Format::Csv),
    }
}

fn main(rt: HostRuntime) -> io::Result<ExitCode> {
    let alloc = rt.alloc();
    let words: Vec<String> = std::env::args(&rt)?.collect(alloc)?;
    // one exit for all commands: each `?` here would drop the words and the request
    let status = match parse(alloc, words.as_slice().get(1..).unwrap_or(&[])) {
        Ok(Some(request)) => match &request {
            Request::Show(form) => run_show(&rt, *form),
            Request::Play(request) => run_play_command(&rt, request),
            Request::MarkInit(request) => run_mark_init_command(&rt, request),
            Request::MarkConvert(request) => run_mark_convert_command(&rt, request),
            Request::MarkShow(file) => run_mark_show_command(&rt, file),
            Request::MarkForget(asked) => run_mark_forget_command(&rt, asked.old, asked.new),
            Request::Node(request) => run_node_command(&rt, request),
            Request::Merge(request) => run_merge_command(&rt, request),
            Request::Stop(path) => run_stop_command(&rt, path),
            Request::Status(asked) => run_status_command(&rt, asked),
            Request::Pmu(request) => run_pmu_command(&rt, request),
            Request::Listen(request) => run_listen_command(&rt, request),
        },
        Ok(None) => Ok(WRONG_ARGUMENTS),
        Err(error) => match error.print(&rt) {
            Ok(()) => Ok(error.exit_code() as u8),
            Err(fault) => Err(fault),
        },
    };
    Ok(ExitCode::from(status?))
}
