//! What a node is told of a PMU.
ghost use Rattle.std.specs.Prelude.{◌<◌, ◌≤◌};
ghost use Rattle.pdc_row.specs.pdc_frame.declared.limits.TheConstants.{MAX_ID};
ghost use Rattle.pdc_row.specs.pdc_frame.declared.tag_limits.TheConstants.{COUNT_LIMIT};

use pdc_row::StreamId;

/// A PMU whose stream a node takes.
#[derive(Clone, Copy, Debug)]
pub struct Pmu {
    /// The id of its stream.
    pub stream: StreamId,
    /// The id of the source that its section names, 1 to 65534.
    pub source: u16,
    /// The counts of FRACSEC in a second, from the rate to 16777215.
    pub time_base: u32,
    pub ghost source_low: { 0 < source },
    pub ghost source_high: { source ≤ MAX_ID },
    pub ghost time_base_high: { time_base < COUNT_LIMIT },
}

/// A PMU to fill places of a list with: every id is 1, and TIME_BASE is the greatest.
impl Default for Pmu {
    fn default() -> Pmu {
        Pmu {
            stream: StreamId { value: 1 },
            source: 1,
            time_base: 0x00FF_FFFF,
        }
    }
}
