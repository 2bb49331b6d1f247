//! Command frames (C37.118.2-2011, 6.6).
ghost use Rattle.std.specs.Prelude.{◌≡◌, ◌+◌, ◌<◌, ◌≤◌, ◌++◌, length, IfOk, IfErr, OnOk, OnErr};
ghost use Rattle.std.specs.Prelude.{IsOk};
ghost use Rattle.std.specs.Int.{w16, to_be_bytes};
ghost use Rattle.pdc_frame.specs.Frame.{fields_of, spelling_of, IsFrame};
ghost use Rattle.pdc_frame.specs.Command.{code_of, command_fields, IsCommand, IsFirstFault};

use crate::buffer::Buffer;
use crate::command_fault::CommandFault;
use crate::frame::{Frame, Kind};
use crate::id::StreamId;
use crate::laws::frames_are_written_in_parts;
use crate::writing::write_frame;
use pdc_words::read_word;
use std::alloc::AllocError;

/// The bytes of a command frame.
pub const COMMAND_SIZE: usize = 18;

/// The bytes of CMD.
const CMD_LEN: usize = 2;

/// What a sender of data is told to do: CMD (C37.118.2-2011, table 15). Its number stands beside each.
#[derive(Clone, Copy, Debug, PartialEq, Eq)]
pub enum Command {
    /// Stop sending data.
    DataOff = 1,
    /// Send data.
    DataOn = 2,
    /// Send the header frame.
    SendHeader = 3,
    /// Send the CFG-1 frame.
    SendCfg1 = 4,
    /// Send the CFG-2 frame.
    SendCfg2 = 5,
    /// Send the CFG-3 frame.
    SendCfg3 = 6,
}

/// The command that a frame carries. It takes no memory.
///
/// # Errors
///
/// The first fault in the order of [`CommandFault`].
pub fn read_command(frame: &Frame) -> Result<Command, CommandFault>
    // The frame carries what is read,
    ensures found { IfOk result (IsCommand (fields_of frame.now)) }
    // and what it carries is read.
    ensures only { (command : Command) → IsCommand (fields_of frame.now) command →
        result ≡ Ok command }
    // Which fault it is.
    ensures fault { IfErr result (IsFirstFault (fields_of frame.now)) }
{
    if frame.kind != Kind::CommandFrame {
        return Err(CommandFault::WrongKind);
    }
    if frame.payload.len() != CMD_LEN {
        return Err(CommandFault::Cut);
    }
    match read_word(frame.payload, 0) {
        1 => Ok(Command::DataOff),
        2 => Ok(Command::DataOn),
        3 => Ok(Command::SendHeader),
        4 => Ok(Command::SendCfg1),
        5 => Ok(Command::SendCfg2),
        6 => Ok(Command::SendCfg3),
        _ => Err(CommandFault::UnknownCommand),
    }
}

/// The two bytes of CMD.
fn cmd_bytes(command: Command) -> [u8; CMD_LEN]
    ensures { result ≡ to_be_bytes w16 (code_of command) }
{
    (command as u16).to_be_bytes()
}

/// Appends the frame that tells the stream `id` this command: version 2, time quality 0 and count 0.
///
/// # Errors
///
/// [`AllocError`] where `out` has no room and gets none.
pub fn write_command<B: Buffer>(
    id: StreamId,
    soc: u32,
    command: Command,
    out: &mut B,
) -> Result<(), AllocError>
    // What is appended is the frame with these fields,
    ensures ok { OnOk result (B.content out.new ≡ B.content out.old ++
        spelling_of (command_fields id.value soc command)) }
    // which is read back, and carries the command.
    ensures frame { IsFrame (spelling_of (command_fields id.value soc command))
        (command_fields id.value soc command) }
    ensures command { IsCommand (command_fields id.value soc command) command }
    // It fails only where there was no room, and then nothing is appended.
    ensures err { OnErr result ((B.content out.new ≡ B.content out.old)
        × (B.capacity out.new ≡ B.capacity out.old)) }
    ensures room { length (B.content out.old) + COMMAND_SIZE ≤ B.capacity out.old → IsOk result }
    // A request for the whole frame was refused.
    ensures refused { OnErr result (B.refused out.new COMMAND_SIZE) }
    // Where there was room, it takes no memory.
    ensures in_place { length (B.content out.old) + COMMAND_SIZE ≤ B.capacity out.old →
        B.capacity out.new ≡ B.capacity out.old }
    ensures capacity { B.capacity out.old ≤ B.capacity out.new }
{
    frames_are_written_in_parts();
    let payload = cmd_bytes(command);
    write_frame(
        &Frame {
            kind: Kind::CommandFrame,
            version: 2,
            id,
            soc,
            quality: 0,
            frac: 0,
            payload: &payload,
        },
        out,
    )
}
