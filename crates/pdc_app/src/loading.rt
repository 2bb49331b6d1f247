//! What is told where there are no settings in a file.

use crate::complaint::complain_of;
use pdc_service::{LoadFault, read_settings_text};
use pdc_settings::{Doubled, Mistake, SettingsFault, doubled_port_in, mistake_in};
use std::fs::File;
use std::io;
use std::rt::Files;

/// What is wrong in a file that was refused for this fault. It is read once more for that; one that gives nothing any more, as a pipe,
/// is told by its fault.
fn mistake_of<R: Files<File = File> + AllocGlobal>(
    rt: &R,
    file: &str,
    fault: SettingsFault,
) -> Mistake {
    match read_settings_text(rt, file) {
        Ok(text) if !text.is_empty() => mistake_in(rt.alloc(), &text, fault),
        _ => Mistake::Fault(fault),
    }
}

/// Prints the file with the reason to standard error: the line, or the key with its table.
pub fn report_load<R: Files<File = File> + AllocGlobal + Eprint>(
    rt: &R,
    command: &str,
    file: &str,
    fault: &LoadFault,
) -> io::Result<()> {
    match fault {
        LoadFault::Unread(error) => complain_of(rt, command, file, error),
        LoadFault::Refused(fault) => {
            complain_of(rt, command, file, &mistake_of(rt, file, *fault))
        }
    }
}

/// The tables of a settings file that both have this port.
fn tables_at<R: Files<File = File> + AllocGlobal>(
    rt: &R,
    file: &str,
    port: u16,
) -> Option<Doubled> {
    let text = read_settings_text(rt, file).ok()?;
    let doubled = doubled_port_in(rt.alloc(), &text)?;
    if doubled.number == port {
        Some(doubled)
    } else {
        None
    }
}

/// Prints the tables of a settings file that both have this port, where there are such.
pub fn report_port<R: Files<File = File> + AllocGlobal + Eprint>(
    rt: &R,
    command: &str,
    file: &str,
    port: u16,
) -> io::Result<()> {
    match tables_at(rt, file, port) {
        Some(doubled) => complain_of(rt, command, file, &doubled),
        None => Ok(()),
    }
}
