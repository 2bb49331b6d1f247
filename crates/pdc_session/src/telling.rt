//! Commands on their way out.
ghost use Rattle.std.specs.Prelude.{◌≡◌, ◌≤◌, ◌<◌, OnOk, OnErr, IsErrOf, is_err};
ghost use Rattle.std.specs.Io.KnownBytes.{Appends};
ghost use Rattle.pdc_frame.specs.Frame.{spelling_of};
ghost use Rattle.pdc_frame.specs.Command.{command_fields};
ghost use Rattle.pdc_session.specs.Counted.{faults_after};
ghost use Rattle.pdc_session.specs.Counting.{faults_of, inner_of, reads_of};

use crate::client_fault::ClientFault;
use crate::counting::Counting;
use arrayvec::ArrayVec;
use pdc_frame::{COMMAND_SIZE, Command, StreamId, write_command};
use std::io::Write;

/// The second that commands are dated with.
const COMMAND_SOC: u32 = 0;

/// The frame that tells the stream `id` this command, dated with second 0.
pub fn command_frame(id: StreamId, command: Command) -> ArrayVec<u8, COMMAND_SIZE>
    ensures { result.items ≡ spelling_of (command_fields id.value COMMAND_SOC command) }
{
    let mut frame = ArrayVec::new();
    write_command(id, COMMAND_SOC, command, &mut frame).unwrap();
    frame
}

/// Writes the frame that tells the stream `id` this command.
///
/// # Errors
///
/// `Device` where the writer fails.
pub fn tell<W: Write>(
    id: StreamId,
    command: Command,
    writer: &mut Counting<W>,
) -> Result<(), ClientFault>
    ensures ok { OnOk result (Appends (W.contents (inner_of writer.old))
        (W.contents (inner_of writer.new)) (spelling_of
        (command_fields id.value COMMAND_SOC command))) }
    ensures err { OnErr result (IsErrOf result ClientFault.Device) }
    ensures reads { reads_of writer.new ≡ reads_of writer.old }
    ensures faults { faults_of writer.new ≡ faults_after (is_err result) (faults_of writer.old) }
{
    let frame = command_frame(id, command);
    match writer.write(frame.as_slice()) {
        Ok(()) => Ok(()),
        Err(_) => Err(ClientFault::Device),
    }
}
