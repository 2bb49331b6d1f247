//! A world that does not begin.
ghost use Rattle.std.specs.Prelude.{◌≡◌, IfOk, IsErrOf, OnOk};
ghost use Rattle.std.specs.Io.KnownBytes.{Appends};
ghost use Rattle.pdc_play.specs.Printed as printed;
ghost use Rattle.pdc_play.specs.declared.ending.Ending.TheVariants.{Refused};

use crate::ending::Ending;
use crate::fault::PlayFault;
use crate::printed::write_fault;
use pdc_history::Fault;
use std::io::Write;

/// Prints why a script is not played at all: its world does not begin.
///
/// # Errors
///
/// A failure of the writer.
#[tactic(auto, using(crate::proofs::Appending::appends_kept))]
pub fn tell_unbegun<W: Write>(fault: Fault, writer: &mut W) -> Result<Ending, PlayFault>
    ensures line { OnOk result (Appends (W.contents writer.old) (W.contents writer.new)
        (printed.fault_line fault 0)) }
    ensures ending { IfOk result (λ end. end ≡ Refused fault) }
    ensures memory { IsErrOf result PlayFault.Memory → ⊥ }
{
    write_fault(fault, 0, writer).map_err(PlayFault::Write)?;
    writer.flush().map_err(PlayFault::Write)?;
    Ok(Ending::Refused(fault))
}
