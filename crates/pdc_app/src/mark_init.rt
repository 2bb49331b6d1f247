//! The command `mark-init`.

use crate::complaint::{complain_of, print_fault};
use crate::{FAILED, REFUSED};
use pdc_command_line::MarkInit;
use pdc_mark::MarkInitFault;
use std::io;

/// The exit status that the fault gives.
pub fn mark_init_status(fault: &MarkInitFault) -> u8 {
    match fault {
        MarkInitFault::Exists => REFUSED,
        MarkInitFault::NotMade(_) | MarkInitFault::NotWritten => FAILED,
    }
}

/// Prints the fault to standard error, and on a second line the file and the reason.
pub fn report_mark_init(
    rt: &impl Eprint,
    fault: &MarkInitFault,
    request: &MarkInit,
) -> io::Result<()> {
    let (command, file) = ("mark-init", request.file);
    print_fault(rt, fault)?;
    match fault {
        MarkInitFault::Exists => complain_of(rt, command, file, &"it is left as it is"),
        MarkInitFault::NotMade(error) => complain_of(rt, command, file, error),
        MarkInitFault::NotWritten => {
            complain_of(rt, command, file, &"the mark cannot be written")
        }
    }
}
