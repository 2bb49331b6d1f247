//! What a concentrator says of itself, beside the stamp of a layout.
ghost use Rattle.std.specs.Prelude.{◌<◌, ◌≤◌};
ghost use Rattle.pdc_row.specs.pdc_frame.declared.tag_limits.TheConstants.{COUNT_LIMIT, MAX_RATE};

use pdc_block::StreamId;

/// The nominal frequency of the grid.
#[derive(Clone, Copy, Debug, PartialEq, Eq)]
pub enum Nominal {
    /// 50 Hz.
    Hz50,
    /// 60 Hz.
    Hz60,
}

/// What the frames say that a concentrator publishes.
#[derive(Clone, Copy, Debug)]
pub struct Output {
    /// The id of the stream.
    pub id: StreamId,
    /// The frames in a second, 1 to 240.
    pub rate: u16,
    /// The nominal frequency that the own section names.
    pub nominal: Nominal,
    /// The counts of FRACSEC in a second, from the rate to 16777215.
    pub time_base: u32,
    pub ghost rate_low: { 1 ≤ rate },
    pub ghost rate_high: { rate ≤ MAX_RATE },
    pub ghost time_base_low: { rate ≤ time_base },
    pub ghost time_base_high: { time_base < COUNT_LIMIT },
}
