//! The command `play`.

use crate::FAILED;
use crate::complaint::print_fault;
use crate::loading::report_load;
use pdc_command_line::Play;
use pdc_play::{AnySettings, CountedReader, Ending, PlayFault, play_settings, read_settings};
use pdc_service::{LoadFault, read_settings_text};
use std::alloc::Global;
use std::fs::File;
use std::io;
use std::io::BufWriter;
use std::rt::Files;

/// The settings in this file.
fn load(
    rt: &(impl Files<File = File> + AllocGlobal),
    file: &str,
) -> Result<AnySettings, LoadFault> {
    let text = read_settings_text(rt, file)?;
    read_settings(rt.alloc(), &text).map_err(LoadFault::Refused)
}

/// Tells why there are no settings in this file, and answers the exit status that it gives.
fn refuse(rt: &HostRuntime, file: &str, fault: &LoadFault) -> io::Result<u8> {
    print_fault(rt, fault)?;
    report_load(rt, "play", file, fault)?;
    Ok(fault.status())
}

/// Plays the script on standard input on a world of these settings.
fn play_streams(
    alloc: Global,
    rt: &(impl Input + Print),
    a: AnySettings,
    b: AnySettings,
    m: AnySettings,
) -> Result<Ending, PlayFault> {
    let mut reader = CountedReader::new(rt.reader());
    let mut writer = BufWriter::new(alloc, io::writer(rt)).map_err(|_| PlayFault::Memory)?;
    play_settings(alloc, a, b, m, &mut reader, &mut writer)
}

/// Plays the script on a world of these settings, and answers the exit status.
fn play(rt: &HostRuntime, a: AnySettings, b: AnySettings, m: AnySettings) -> io::Result<u8> {
    match play_streams(rt.alloc(), rt, a, b, m) {
        Ok(ending) => Ok(ending.status()),
        Err(fault) => {
            eprintln!(rt; "pdc play: {fault}")?;
            Ok(FAILED)
        }
    }
}

/// Reads the settings of the merger, and plays.
fn play_with_nodes(
    rt: &HostRuntime,
    request: &Play,
    a: AnySettings,
    b: AnySettings,
) -> io::Result<u8> {
    match load(rt, request.m) {
        Ok(m) => play(rt, a, b, m),
        Err(fault) => refuse(rt, request.m, &fault),
    }
}

/// Reads the settings of node B and of the merger, and plays.
fn play_with_a(rt: &HostRuntime, request: &Play, a: AnySettings) -> io::Result<u8> {
    match load(rt, request.b) {
        Ok(b) => play_with_nodes(rt, request, a, b),
        Err(fault) => refuse(rt, request.b, &fault),
    }
}

/// Runs the command, and answers its exit status. The settings are read from left to right, and the script behind them. A function for each
/// file: to own three settings across all their exits is dear to prove.
pub fn run_play_command(rt: &HostRuntime, request: &Play) -> io::Result<u8> {
    match load(rt, request.a) {
        Ok(a) => play_with_a(rt, request, a),
        Err(fault) => refuse(rt, request.a, &fault),
    }
}
