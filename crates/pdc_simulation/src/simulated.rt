//! What is simulated.
ghost use Rattle.std.specs.Prelude.{◌≡◌, ◌≤◌, ◌<◌};
ghost use Rattle.pdc_frame.specs.declared.tag_limits.TheConstants.{MAX_RATE};

use crate::outlets::Target;
use pdc_frame::StreamId;

/// What is simulated.
#[derive(Clone, Copy, Debug)]
pub struct Simulated<'a> {
    /// The stream id.
    pub id: StreamId,
    /// The frames in a second, 1 to 240.
    pub rate: u16,
    /// How many data frames are sent.
    pub count: u32,
    /// The places that each frame goes to by UDP.
    pub places: &'a [Target<'a>],
    /// The TCP port at which up to four consumers are served.
    pub tcp: Option<Target<'a>>,
    /// After how many seconds the configuration is sent again; where there is none, it is sent once.
    pub config_every: Option<u32>,
    /// Whether it is a PMU at a bus of a simulated grid; else it has one phasor, which counts.
    pub is_grid: bool,
    pub ghost rate_low: { 1 ≤ rate },
    pub ghost rate_high: { rate ≤ MAX_RATE },
}
