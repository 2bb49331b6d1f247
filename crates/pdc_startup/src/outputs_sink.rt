//! Frames to all outputs, and what could not be sent to each.
ghost use Rattle.std.specs.Prelude.{◌≡◌, List, ℕ};

use pdc_journal::OutputTally;
use pdc_ports::{Sink, SinkFault};
use pdc_sockets::Outputs;

/// Sends each frame to each of the further destinations, and then as the outputs do. A destination that cannot be reached is counted for
/// it alone: the others get their frames.
#[derive(Drop)]
pub struct OutputsSink<'a, O: Outputs + Drop> {
    pub outputs: O,
    /// The tally of each further destination, in their order.
    tallies: &'a [OutputTally],
}

impl<'a, O: Outputs + Drop> OutputsSink<'a, O> {
    /// Sends by these, and counts for each further destination what could not be sent to it.
    pub fn new(outputs: O, tallies: &'a [OutputTally]) -> OutputsSink<'a, O>
        ensures { result.outputs ≡ outputs }
    {
        OutputsSink { outputs, tallies }
    }
}

/// Hands a frame to the further destinations, one for each tally.
fn send_further<O: Outputs>(outputs: &mut O, tallies: &[OutputTally], bytes: &[u8])
    ensures kept { (before : O) (given : List (List ℕ)) → O.took before outputs.old given →
        O.took before outputs.new given }
    ensures same { O.failures_of outputs.new ≡ O.failures_of outputs.old }
{
    for (number, tally) in tallies.iter().enumerate() {
        if let Err(reason) = outputs.send_further(number, bytes) {
            tally.count(reason);
        }
    }
}

/// It takes what its outputs take.
impl<'a, O: Outputs + Drop> Sink for OutputsSink<'a, O> {
    ghost took = { λ before now given. O.took before.outputs now.outputs given };

    ghost nothing = { λ s. O.nothing s.outputs };

    ghost failures_of = { λ s. O.failures_of s.outputs };

    fn send(&mut self, bytes: &[u8]) -> Result<(), SinkFault> {
        send_further(&mut self.outputs, self.tallies, bytes);
        self.outputs.send(bytes)
    }

    fn failures(&self) -> u64 {
        self.outputs.failures()
    }
}
