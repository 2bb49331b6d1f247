//! What a simulated PMU hands to a sink at an instant.
ghost use Rattle.std.specs.Prelude.{◌≡◌, ◌≤◌, ◌<◌, ◌+◌, ◌*◌, [], ◌∷◌, ℕ, List, true, length};
ghost use Rattle.std.specs.Prelude.{if◌then◌else◌, IfErr, IsSomeAnd, OnErr, OnOk};
ghost use Rattle.pdc_cfg.specs.Shape.{word_count_of};
ghost use Rattle.pdc_simulation.specs.Pmu.{after_data, data_of, is_later};
ghost use Rattle.pdc_frame.specs.declared.tag_limits.TheConstants.{SECONDS};
ghost use Rattle.pdc_simulation.specs.Sent.{AreWords, Stands, TakesMore, data_at, frames_of};
ghost use Rattle.pdc_simulation.specs.Sent.{is_due, run_of};
ghost use Rattle.pdc_simulation.specs.Stopped.{IsCause};

use crate::fault::SimulationFault;
use crate::grid::grid_words;
use crate::run::Run;
use crate::sender::Sender;
use pdc_frame::SECONDS;
use pdc_ports::{Sink, SinkFault};

/// The phasors go from 0 up to below this number, and then from 0 again.
const PHASORS: u32 = 32768;

/// Whether the configuration is sent again before the data frame with this number.
pub fn is_config_due(number: u32, every: Option<u32>, rate: u16) -> bool
    ensures { result ≡ is_due every rate number }
{
    match every {
        Some(seconds) => {
            let frames = u64::from(seconds) * u64::from(rate);
            number > 0 && frames > 0 && u64::from(number) % frames == 0
        }
        None => false,
    }
}

/// Hands a frame to the sink.
pub fn hand<K: Sink>(sink: &mut K, frame: &[u8]) -> Result<(), SimulationFault>
    ensures ok { OnOk result (TakesMore K.took sink.old sink.new (frame.now ∷ [])) }
    ensures none { OnErr result (TakesMore K.took sink.old sink.new []) }
    ensures err { IfErr result (λ fault. IsCause fault (K.failures_of sink.old)
        (K.failures_of sink.new)) }
    ensures more { K.failures_of sink.old ≤ K.failures_of sink.new }
{
    match sink.send(frame) {
        Ok(()) => Ok(()),
        Err(SinkFault) => Err(SimulationFault::NotSent(None)),
    }
}

/// Sends the configuration once more, where it is due.
pub fn repeat_config<K: Sink>(
    is_due: bool,
    config: &[u8],
    sink: &mut K,
) -> Result<(), SimulationFault>
    ensures ok { OnOk result (TakesMore K.took sink.old sink.new (if is_due then config.now ∷
        [] else [])) }
    ensures none { OnErr result (TakesMore K.took sink.old sink.new []) }
    ensures err { IfErr result (λ fault. IsCause fault (K.failures_of sink.old)
        (K.failures_of sink.new)) }
    ensures more { K.failures_of sink.old ≤ K.failures_of sink.new }
{
    if !is_due {
        return Ok(());
    }
    hand(sink, config)
}

/// Makes the data frame of the instant, and sends it.
fn send_data<K: Sink>(
    sender: &mut Sender,
    instant: u64,
    words: &[u16],
    sink: &mut K,
) -> Result<(), SimulationFault>
    requires instant { instant < SECONDS * sender.old.pmu.rate }
    requires fits { IsSomeAnd sender.old.pmu.shape (λ shape. length words.now ≡
        word_count_of shape) }
    requires later { is_later sender.old.pmu.last instant ≡ true }
    ensures ok { OnOk result (TakesMore K.took sink.old sink.new
        (data_of sender.old.pmu instant words.now ∷ [])) }
    ensures sent { OnOk result (sender.new.pmu ≡ after_data sender.old.pmu instant) }
    ensures none { OnErr result (TakesMore K.took sink.old sink.new []) }
    ensures err { IfErr result (λ fault. IsCause fault (K.failures_of sink.old)
        (K.failures_of sink.new)) }
    ensures more { K.failures_of sink.old ≤ K.failures_of sink.new }
{
    sender.frame.clear();
    if let Err(fault) = sender.pmu.send(instant, words, &mut sender.frame) {
        return Err(SimulationFault::Pmu(fault));
    }
    hand(sink, &sender.frame)
}

/// Sends the words as the data frame of the instant with this number, where a frame can tell it. Answers whether it did.
fn send_words<K: Sink>(
    run: &Run<'_>,
    number: u32,
    words: &[u16],
    sender: &mut Sender,
    sink: &mut K,
) -> Result<bool, SimulationFault>
    requires stands { Stands (run_of run.now.simulated.now run.now.first) number sender.old.pmu }
    requires words { AreWords run.now.simulated.now.is_grid number words.now }
    ensures ok { OnOk result ((config : List ℕ)
        → TakesMore K.took sink.old sink.new
        (frames_of (run_of run.now.simulated.now run.now.first) config
        (data_at (run_of run.now.simulated.now run.now.first) number words.now))) }
    ensures stands { OnOk result (Stands (run_of run.now.simulated.now run.now.first) (number +
        1) sender.new.pmu) }
    ensures none { OnErr result (TakesMore K.took sink.old sink.new []) }
    ensures err { IfErr result (λ fault. IsCause fault (K.failures_of sink.old)
        (K.failures_of sink.new)) }
    ensures more { K.failures_of sink.old ≤ K.failures_of sink.new }
{
    let instant = run.first.saturating_add(u64::from(number));
    if instant >= SECONDS * u64::from(run.simulated.rate) {
        return Ok(false);
    }
    match send_data(sender, instant, words, sink) {
        Ok(()) => Ok(true),
        Err(fault) => Err(fault),
    }
}

/// Sends the data frame of the instant with this number, where a frame can tell it: STAT 0, the phasor (`number` mod 32768, 0), FREQ 0 and
/// DFREQ 0, or what a bus of the grid has. Answers whether it did.
///
/// # Errors
///
/// A sink that fails, and want of memory.
pub fn send_number<K: Sink>(
    run: &Run<'_>,
    number: u32,
    sender: &mut Sender,
    sink: &mut K,
) -> Result<bool, SimulationFault>
    requires stands { Stands (run_of run.now.simulated.now run.now.first) number sender.old.pmu }
    ensures ok { OnOk result ((words : List ℕ) × AreWords run.now.simulated.now.is_grid number words
        × ((config : List ℕ) → TakesMore K.took sink.old sink.new
        (frames_of (run_of run.now.simulated.now run.now.first) config
        (data_at (run_of run.now.simulated.now run.now.first) number words)))) }
    ensures stands { OnOk result (Stands (run_of run.now.simulated.now run.now.first) (number +
        1) sender.new.pmu) }
    ensures none { OnErr result (TakesMore K.took sink.old sink.new []) }
    ensures err { IfErr result (λ fault. IsCause fault (K.failures_of sink.old)
        (K.failures_of sink.new)) }
    ensures more { K.failures_of sink.old ≤ K.failures_of sink.new }
{
    if run.simulated.is_grid {
        let instant = run.first.saturating_add(u64::from(number));
        let since = instant.saturating_mul(1000) / u64::from(run.simulated.rate);
        let words = grid_words(run.simulated.id.value, since);
        send_words(run, number, &words, sender, sink)
    } else {
        let words = [0, (number % PHASORS) as u16, 0, 0, 0];
        send_words(run, number, &words, sender, sink)
    }
}
