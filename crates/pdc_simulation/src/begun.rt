//! A simulated PMU before it sends.
ghost use Rattle.std.specs.Prelude.{◌≡◌, ◌≤◌, IfErr, IfOk};
ghost use Rattle.pdc_simulation.specs.Sent.{run_of, second_of, word_count};
ghost use Rattle.pdc_simulation.specs.Starting.{IsBegun};
ghost use Rattle.pdc_simulation.specs.Stopped.{IsUnbegun};

use crate::fault::SimulationFault;
use crate::grid::{WORDS, grid_payload};
use crate::pmu::Pmu;
use crate::section::{config_of, payload_of};
use crate::simulated::Simulated;
use pdc_cfg::SectionView;
use std::alloc::{AllocError, Global};

/// The counts of FRACSEC in a second.
const TIME_BASE: u32 = 1_000_000;

/// The words of a block with one phasor that counts: STAT, the phasor, FREQ and DFREQ.
pub const COUNTING_WORDS: usize = 5;

/// The second of an instant, or the greatest one that a frame can tell.
pub fn second_of(instant: u64, rate: u16) -> u32
    requires { 1 ≤ rate }
    ensures { result ≡ second_of instant rate }
{
    u32::try_from(instant / u64::from(rate)).unwrap_or(u32::MAX)
}

/// The payload of the configuration.
fn payload_for(alloc: Global, simulated: &Simulated<'_>) -> Result<Vec<u8>, AllocError> {
    if simulated.is_grid {
        grid_payload(alloc, simulated.id.value)
    } else {
        Vec::from_slice(alloc, payload_of(simulated.id.value).as_slice())
    }
}

/// How many words a data frame has.
fn word_count(is_grid: bool) -> usize
    ensures { result ≡ word_count is_grid }
{
    if is_grid { WORDS } else { COUNTING_WORDS }
}

/// The PMU with its configuration's frame, of this section, of which no frame was sent yet.
fn configured(
    alloc: Global,
    simulated: &Simulated<'_>,
    first: u64,
    section: &SectionView<'_>,
) -> Result<(Pmu, Vec<u8>), SimulationFault>
    ensures ok { IfOk result (λ begun. IsBegun (run_of simulated.now first) begun.0 begun.1.items) }
    ensures err { IfErr result IsUnbegun }
{
    if section.shape.word_count() != word_count(simulated.is_grid) {
        return Err(SimulationFault::Layout);
    }
    let mut pmu = Pmu::new(simulated.id, simulated.rate, TIME_BASE);
    let mut frame = Vec::new(alloc);
    match pmu.set_configuration(second_of(first, simulated.rate), section, &mut frame) {
        Ok(()) => Ok((pmu, frame)),
        Err(fault) => Err(SimulationFault::Pmu(fault)),
    }
}

/// The PMU with its configuration's frame, dated with the second of the first instant, of which no frame was sent yet.
///
/// # Errors
///
/// Want of memory, and a configuration of another number of words than are to be sent.
pub fn begun(
    alloc: Global,
    simulated: &Simulated<'_>,
    first: u64,
) -> Result<(Pmu, Vec<u8>), SimulationFault>
    ensures ok { IfOk result (λ begun. IsBegun (run_of simulated.now first) begun.0 begun.1.items) }
    ensures err { IfErr result IsUnbegun }
{
    let Ok(payload) = payload_for(alloc, simulated) else {
        return Err(SimulationFault::NoMemory);
    };
    let Some(config) = config_of(&payload) else {
        return Err(SimulationFault::Layout);
    };
    let Some(section) = config.sections.first() else {
        return Err(SimulationFault::Layout);
    };
    configured(alloc, simulated, first, section)
}
