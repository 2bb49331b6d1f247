//! The control socket of a run, and the commands `stop` and `status`.

use crate::complaint::{complain_of, print_fault};
use crate::{DONE, FAILED, REFUSED};
use pdc_command_line::Status;
use pdc_service::{
    AskFault, ControlFault, ControlSocket, Form, Head, Host, MAX_PATH, Request, ServiceFault,
    Totals, ask,
};
use std::alloc::{AllocError, Global};
use std::io;
use std::net::Net;

/// Tells why there is no control socket.
fn report_control(
    rt: &impl Eprint,
    command: &str,
    path: &str,
    fault: &ControlFault,
) -> io::Result<()> {
    print_fault(rt, &"device fault")?;
    match fault {
        ControlFault::TooLong => {
            eprintln!(rt;
                "pdc {command}: {path}: a control socket has a path of {MAX_PATH} bytes at most"
            )
        }
        ControlFault::InUse => {
            complain_of(rt, command, path, &"a run answers at this control socket")
        }
        ControlFault::NoSocket => {
            complain_of(rt, command, path, &"it is no socket, and is left as it is")
        }
        ControlFault::NotMade(error) => complain_of(rt, command, path, error),
        ControlFault::NoMemory => complain_of(rt, command, path, &"memory ran out"),
    }
}

/// The control socket of this path; none where it cannot be made, which is told.
pub fn open_control<'a, R: Host>(
    rt: &R,
    command: &str,
    path: &'a str,
) -> io::Result<Option<ControlSocket<'a>>> {
    match ControlSocket::open(rt, rt.alloc(), path) {
        Ok(socket) => Ok(Some(socket)),
        Err(fault) => {
            report_control(rt, command, path, &fault)?;
            Ok(None)
        }
    }
}

/// What is told of a run that has ended, as a line.
fn end_text(alloc: Global, outcome: &Result<Totals, ServiceFault>) -> Result<String, AllocError> {
    match outcome {
        Ok(totals) => {
            let (taken, refused, published) = (totals.taken, totals.refused, totals.published);
            format!(in alloc; "taken={taken} refused={refused} published={published}\n")
        }
        Err(fault) => format!(in alloc; "{fault}\n"),
    }
}

/// Removes the socket, and tells what came of the run to all who ended it.
pub fn end_control<R: Host>(
    rt: &R,
    socket: &ControlSocket<'_>,
    outcome: &Result<Totals, ServiceFault>,
) {
    let head = match outcome {
        Ok(_) => Head::Done,
        Err(_) => Head::Failed,
    };
    match end_text(rt.alloc(), outcome) {
        Ok(text) => socket.close(rt, head, text.as_str()),
        Err(_) => socket.close(rt, head, "\n"),
    }
}

/// Tells why a run did not answer, and answers the exit status.
fn report_ask(rt: &impl Eprint, command: &str, path: &str, fault: &AskFault) -> io::Result<u8> {
    match fault {
        AskFault::Nobody(error) => {
            eprintln!(rt; "pdc {command}: {path}: no run answers: {error}")?;
            return Ok(REFUSED);
        }
        AskFault::Lost(error) => eprintln!(rt; "pdc {command}: {path}: no answer: {error}")?,
        AskFault::NoAnswer => {
            complain_of(
                rt,
                command,
                path,
                &"it ended without an answer, or answers otherwise",
            )?;
        }
        AskFault::NoMemory => complain_of(rt, command, path, &"memory ran out")?,
    }
    Ok(FAILED)
}

/// Asks the run whose control socket has this path, prints what it answers, and answers the exit status.
fn run_ask<R: AllocGlobal + Net + Print + Eprint>(
    rt: &R,
    command: &str,
    path: &str,
    request: Request,
) -> io::Result<u8> {
    let answer = match ask(rt, rt.alloc(), path, request) {
        Ok(answer) => answer,
        Err(fault) => return report_ask(rt, command, path, &fault),
    };
    let text = answer.text.as_str();
    match answer.head {
        Head::Done => {
            print!(rt; "{text}")?;
            Ok(DONE)
        }
        Head::Refused => {
            eprint!(rt; "pdc {command}: {path}: it is refused: {text}")?;
            Ok(REFUSED)
        }
        Head::Failed => {
            eprint!(rt; "pdc {command}: {path}: {text}")?;
            Ok(FAILED)
        }
    }
}

/// Ends a run, and answers the exit status.
pub fn run_stop_command<R: AllocGlobal + Net + Print + Eprint>(
    rt: &R,
    path: &str,
) -> io::Result<u8> {
    run_ask(rt, "stop", path, Request::Stop)
}

/// Prints how a run stands, and answers the exit status.
pub fn run_status_command<R: AllocGlobal + Net + Print + Eprint>(
    rt: &R,
    asked: &Status<'_>,
) -> io::Result<u8> {
    let form = if asked.is_json {
        Form::Json
    } else {
        Form::Lines
    };
    run_ask(rt, "status", asked.path, Request::Status(form))
}
