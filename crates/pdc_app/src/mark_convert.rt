//! The command `mark-convert`.

use crate::complaint::{complain_of, print_fault};
use crate::{FAILED, REFUSED};
use pdc_command_line::MarkConvert;
use pdc_mark::{MarkConvertFault, MarkFault};
use std::io;
use std::io::ErrorKind;

/// The exit status that the fault gives.
pub fn mark_convert_status(fault: &MarkConvertFault) -> u8 {
    match fault {
        MarkConvertFault::Refused(MarkFault::Device)
        | MarkConvertFault::NotRead(_)
        | MarkConvertFault::NotMade(_) => FAILED,
        MarkConvertFault::Exists | MarkConvertFault::Refused(_) => REFUSED,
    }
}

/// Prints the fault to standard error, and on a second line the file and the reason.
pub fn report_mark_convert(
    rt: &impl Eprint,
    fault: &MarkConvertFault,
    request: &MarkConvert,
) -> io::Result<()> {
    let (command, old, new) = ("mark-convert", request.old, request.new);
    print_fault(rt, fault)?;
    match fault {
        MarkConvertFault::Exists => complain_of(rt, command, new, &"it is left as it is"),
        MarkConvertFault::NotRead(error) if error.kind() == ErrorKind::WouldBlock => {
            complain_of(rt, command, old, &"in use by another process")
        }
        MarkConvertFault::NotRead(error) => complain_of(rt, command, old, error),
        MarkConvertFault::NotMade(error) => complain_of(rt, command, new, error),
        MarkConvertFault::Refused(_) => {
            eprintln!(rt; "pdc mark-convert: {old} was not converted to {new}")
        }
    }
}
