//! The commands `node` and `merge`.

use crate::complaint::{NamedPort, complain, complain_at, complain_of, print_fault};
use crate::controlling::{end_control, open_control};
use crate::loading::{report_load, report_port};
use crate::owner::report_mark;
use crate::{DONE, FAILED};
use pdc_command_line::Running;
use pdc_service::{
    Control, ControlSocket, Host, HubFault, Limits, RecordFile, RunOptions, ServiceFault,
    ThisMachine, Totals, serve_control, serve_merger, serve_node,
};
use std::fs::File;
use std::net::SocketAddr;
use std::rt::Files;
use std::thread::Scope;
use std::{io, thread};

/// Prints what a run counted.
fn report_totals(rt: &impl Print, totals: &Totals) -> io::Result<u8> {
    let (taken, refused, published) = (totals.taken, totals.refused, totals.published);
    println!(rt; "taken={taken} refused={refused} published={published}")?;
    Ok(DONE)
}

/// Tells that a further destination was not opened.
fn complain_of_output(
    rt: &impl Eprint,
    command: &str,
    settings: &str,
    number: usize,
    error: &io::Error,
) -> io::Result<()> {
    eprintln!(rt; "pdc {command}: {settings}: outputs, number {number}: {error}")
}

/// Reports that a stream cannot be asked for.
fn complain_of_input(
    rt: &impl Eprint,
    command: &str,
    settings: &str,
    id: u16,
    error: &io::Error,
) -> io::Result<()> {
    eprintln!(rt; "pdc {command}: {settings}: the host of stream {id}: {error}")
}

/// Tells that the record was not begun.
fn complain_of_record(
    rt: &impl Eprint,
    command: &str,
    request: &Running,
    error: &io::Error,
) -> io::Result<()> {
    let name = request.record.map_or("", |record| record.name);
    eprintln!(rt; "pdc {command}: the first file of the record {name}: {error}")
}

/// Tells that a port was not opened, and which two tables have it, where two have.
fn complain_of_port<R: Files<File = File> + AllocGlobal + Eprint>(
    rt: &R,
    command: &str,
    settings: &str,
    at: SocketAddr,
    error: &io::Error,
) -> io::Result<()> {
    complain_at(rt, command, &NamedPort { kind: "", at }, error)?;
    report_port(rt, command, settings, at.port())
}

/// Tells what a fault is about, and the reason.
fn tell_fault<R: Files<File = File> + AllocGlobal + Eprint>(
    rt: &R,
    command: &str,
    fault: &ServiceFault,
    request: &Running,
) -> io::Result<()> {
    let (settings, mark) = (request.settings, request.mark);
    match fault {
        ServiceFault::Settings(fault) => report_load(rt, command, settings, fault),
        ServiceFault::MarkUnopened(error) => complain_of(rt, command, mark, error),
        ServiceFault::MarkInUse => complain_of(rt, command, mark, &"in use by another process"),
        ServiceFault::Mark(fault) => report_mark(rt, command, request, *fault),
        ServiceFault::Port(at, error) => complain_of_port(rt, command, settings, *at, error),
        ServiceFault::Output(number, error) => {
            complain_of_output(rt, command, settings, *number, error)
        }
        ServiceFault::Input(id, error) => complain_of_input(rt, command, settings, *id, error),
        ServiceFault::Record(error) => complain_of_record(rt, command, request, error),
        ServiceFault::Run(_) => complain(rt, command, "the run ended early"),
        ServiceFault::Clock => complain(rt, command, "the clock cannot be read"),
    }
}

/// Prints the fault to standard error, and on a second line the file or the port with the reason. Answers the exit status.
fn report_fault<R: Files<File = File> + AllocGlobal + Eprint>(
    rt: &R,
    command: &str,
    fault: &ServiceFault,
    request: &Running,
) -> io::Result<u8> {
    print_fault(rt, fault)?;
    tell_fault(rt, command, fault, request)?;
    Ok(fault.status())
}

/// Prints what came of a run, and answers the exit status.
fn report_run<R: Host + Print>(
    rt: &R,
    command: &str,
    request: &Running,
    outcome: Result<Totals, ServiceFault>,
) -> io::Result<u8> {
    match outcome {
        Ok(totals) => report_totals(rt, &totals),
        Err(fault) => report_fault(rt, command, &fault, request),
    }
}

/// The bytes of a mebibyte.
const MEBIBYTE: u64 = 1048576;

/// The files that a command names.
fn files_of<'a>(request: &Running<'a>) -> pdc_service::Files<'a> {
    pdc_service::Files {
        settings: request.settings,
        mark: request.mark,
        record: request.record.map(|record| RecordFile {
            name: record.name,
            limits: Limits {
                size: u64::from(record.size) * MEBIBYTE,
                keep: record.keep,
                lives: record.lives,
            },
        }),
    }
}

/// For how long it runs, what it tells, and by what it is stopped before.
fn options_of<'a>(request: &Running, control: Option<&'a Control>) -> RunOptions<'a> {
    RunOptions {
        ticks: request.ticks,
        every: request.every,
        is_quiet: request.is_quiet,
        control,
    }
}

/// What runs.
#[derive(Clone, Copy)]
enum Role {
    Node,
    Merger,
}

impl Role {
    /// The command that runs it.
    fn command(self) -> &'static str {
        match self {
            Role::Node => "node",
            Role::Merger => "merge",
        }
    }
}

/// Runs it to its end.
fn serve<R: Host>(
    rt: &R,
    role: Role,
    request: &Running,
    control: Option<&Control>,
) -> Result<Totals, ServiceFault> {
    let (files, options) = (files_of(request), options_of(request, control));
    match role {
        Role::Node => serve_node(rt, &mut ThisMachine, &files, &options),
        Role::Merger => serve_merger(rt, &mut ThisMachine, &files, &options),
    }
}

/// Runs it to its end, with a thread beside it that answers at the socket.
fn serve_beside<'s, E: 's, R: Host + 's>(
    scope: &'s Scope<'s, E>,
    rt: &'s R,
    role: Role,
    request: &Running,
    socket: &'s ControlSocket<'s>,
) -> Result<Totals, ServiceFault> {
    if scope
        .spawn(move || -> () { serve_control(rt, socket) })
        .is_err()
    {
        return Err(ServiceFault::Run(HubFault::NoMemory));
    }
    let outcome = serve(rt, role, request, Some(&socket.control));
    socket.control.end();
    outcome
}

/// Runs it to its end, under control at the socket.
fn serve_controlled<R: Host>(
    rt: &R,
    role: Role,
    request: &Running,
    socket: &ControlSocket<'_>,
) -> Result<Totals, ServiceFault> {
    thread::scope(
        thread::scope_env(),
        rt,
        |scope| -> Result<Totals, ServiceFault> { serve_beside(scope, rt, role, request, socket) },
    )
}

/// Runs it to its end under control at the socket of this path, tells what came of it to all who ended it, and answers the exit status.
fn run_controlled<R: Host + Print>(
    rt: &R,
    role: Role,
    request: &Running,
    path: &str,
) -> io::Result<u8> {
    let Some(socket) = open_control(rt, role.command(), path)? else {
        return Ok(FAILED);
    };
    let outcome = serve_controlled(rt, role, request, &socket);
    end_control(rt, &socket, &outcome);
    report_run(rt, role.command(), request, outcome)
}

/// Runs it to its end, and answers the exit status.
fn run_role<R: Host + Print>(rt: &R, role: Role, request: &Running) -> io::Result<u8> {
    match request.control {
        Some(path) => run_controlled(rt, role, request, path),
        None => {
            let outcome = serve(rt, role, request, None);
            report_run(rt, role.command(), request, outcome)
        }
    }
}

/// Runs a node, and answers the exit status.
pub fn run_node_command<R: Host + Print>(rt: &R, request: &Running) -> io::Result<u8> {
    run_role(rt, Role::Node, request)
}

/// Runs the merger, and answers the exit status.
pub fn run_merge_command<R: Host + Print>(rt: &R, request: &Running) -> io::Result<u8> {
    run_role(rt, Role::Merger, request)
}
