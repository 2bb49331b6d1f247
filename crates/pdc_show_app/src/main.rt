//! `pdc show` alone, as a program that stands on six crates: what frames in hexadecimal say.
#![tactic(auto)]

use pdc_show::run_show_command;
use std::io;
use std::process::ExitCode;

fn main(rt: HostRuntime) -> io::Result<ExitCode> {
    let status = run_show_command(&rt, rt.alloc())?;
    Ok(ExitCode::from(status))
}
