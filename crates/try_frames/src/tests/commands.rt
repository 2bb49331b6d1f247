//! Commands and headers.
ghost use Rattle.std.specs.Prelude.{◌<◌, ◌≤◌, length};

use super::same::is;
use super::vectors::DATA_ON;
use pdc_frame::{Frame, Kind, MAX_ID, StreamId, read_frame, *};
use std::alloc::{AllocError, Global};
use std::test::*;

/// Tells stream 201 to send its CFG-2.
const SEND_CFG2: [u8; 18] = [
    0xAA, 0x42, 0x00, 0x12, 0x00, 0xC9, 0x44, 0x85, 0x27, 0xF0, 0x00, 0x00, 0x00, 0x00, 0x00, 0x05,
    0xED, 0x85,
];

#[test]
fn command_read(rt: HostRuntime) -> Result<(), Fail> {
    let frame = read_frame(&DATA_ON)?;
    is!(&rt; read_command(&frame), Ok(Command::DataOn));
    Ok(())
}

#[test]
fn command_written(rt: HostRuntime) {
    let mut out = Vec::new(rt.alloc());
    write_command(
        StreamId { value: 201 },
        1_149_577_200,
        Command::SendCfg2,
        &mut out,
    )
    .expect(&rt, "memory");
    is!(&rt; out.as_slice(), SEND_CFG2.as_slice());
}

/// What a command frame with this payload carries.
fn carried(payload: &[u8; 2]) -> Result<Command, CommandFault> {
    read_command(&frame_of(Kind::CommandFrame, payload))
}

/// A frame of stream 201 of at most three bytes.
fn frame_of(kind: Kind, payload: &[u8]) -> Frame<'_>
    requires { length payload.now ≤ 3 }
{
    Frame {
        kind,
        version: 2,
        id: StreamId { value: 201 },
        soc: 0,
        quality: 0,
        frac: 0,
        payload,
    }
}

#[test]
fn numbers_of_the_commands(rt: HostRuntime) {
    is!(&rt; carried(&[0, 1]), Ok(Command::DataOff));
    is!(&rt; carried(&[0, 2]), Ok(Command::DataOn));
    is!(&rt; carried(&[0, 3]), Ok(Command::SendHeader));
    is!(&rt; carried(&[0, 4]), Ok(Command::SendCfg1));
    is!(&rt; carried(&[0, 5]), Ok(Command::SendCfg2));
    is!(&rt; carried(&[0, 6]), Ok(Command::SendCfg3));
    is!(&rt; carried(&[0, 0]), Err(CommandFault::UnknownCommand));
    is!(&rt; carried(&[0, 7]), Err(CommandFault::UnknownCommand));
    is!(&rt; carried(&[1, 1]), Err(CommandFault::UnknownCommand));
}

#[test]
fn faults_in_order(rt: HostRuntime) {
    let none = frame_of(Kind::CommandFrame, &[]);
    let three = frame_of(Kind::CommandFrame, &[0, 2, 0]);
    let header = frame_of(Kind::HeaderFrame, &[0, 2, 0]);
    is!(&rt; read_command(&none), Err(CommandFault::Cut));
    is!(&rt; read_command(&three), Err(CommandFault::Cut));
    is!(&rt; read_command(&header), Err(CommandFault::WrongKind));
}

#[test]
fn header_written_and_read(rt: HostRuntime) {
    let mut out = Vec::new(rt.alloc());
    write_header(StreamId { value: 201 }, 0, b"PDC 00201", &mut out).expect(&rt, "memory");
    is!(&rt; out.len(), 25);
    let frame = read_frame(&out).expect(&rt, "a frame");
    is!(&rt; frame.kind, Kind::HeaderFrame);
    is!(&rt; frame.id.value, 201);
    is!(&rt; read_header(&frame), Ok(b"PDC 00201".as_slice()));
}

#[test]
fn command_and_header_stand_apart(rt: HostRuntime) {
    let command = frame_of(Kind::CommandFrame, &[0, 2]);
    let header = frame_of(Kind::HeaderFrame, &[0, 2]);
    is!(&rt; read_command(&header), Err(CommandFault::WrongKind));
    is!(&rt; read_header(&command), Err(CommandFault::WrongKind));
}

#[test]
fn fault_texts(rt: HostRuntime) {
    for (fault, text) in [
        (CommandFault::WrongKind, "N1 WrongKind"),
        (CommandFault::Cut, "N2 Cut"),
        (CommandFault::UnknownCommand, "N3 UnknownCommand"),
    ] {
        let found = fault.to_string(rt.alloc()).expect(&rt, "memory");
        is!(&rt; found.as_str(), text);
    }
}

/// A command that is written and read back. The prover sees that no arm is left out and that the commands are equal, by
/// the contracts alone.
fn read_back(alloc: Global, id: StreamId, soc: u32, command: Command) -> Result<(), AllocError> {
    let mut out = Vec::new(alloc);
    write_command(id, soc, command, &mut out)?;
    let Ok(frame) = read_frame(&out) else {
        unreachable!()
    };
    prove_eq!(frame.id.value, id.value);
    let Ok(read) = read_command(&frame) else {
        unreachable!()
    };
    prove_eq!(read, command);
    Ok(())
}

#[test]
fn commands_are_read_back(rt: HostRuntime) -> Result<(), Fail> {
    for command in [Command::DataOff, Command::DataOn, Command::SendHeader] {
        read_back(rt.alloc(), StreamId { value: 1 }, 0, command)?;
        read_back(rt.alloc(), StreamId { value: MAX_ID }, u32::MAX, command)?;
    }
    Ok(())
}
