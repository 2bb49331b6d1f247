//! What the running program does with the rows and frames of a concentrator.
ghost use Rattle.std.specs.Prelude.{◌≤◌};
ghost use Rattle.pdc_publisher.specs.declared.publisher.TheConstants.{MAX_LEAD};

/// When a concentrator ticks: once in the time of a frame, so that `wait` counts ticks of one length.
#[derive(Clone, Copy, Debug, PartialEq, Eq)]
pub enum TickWhen {
    /// At its deadline, when that time is over.
    Period,
    /// Before it, as soon as the lowest open row has all that it waits for; else at its deadline.
    Whole,
}

/// What the running program does with the rows and frames of a concentrator.
#[derive(Clone, Copy, Debug)]
pub struct Service {
    /// The instants that are reserved ahead, 0 to 1000.
    pub lead: u16,
    /// The ticks from one layout frame to the next, 1 to 65535.
    pub layout_every: u16,
    /// The UDP port that the frames are sent to, 1 to 65535.
    pub out_port: u16,
    /// The TCP port of the sessions, 1 to 65535.
    pub session_port: u16,
    /// When it ticks; left out, at deadlines alone.
    pub tick: TickWhen,
    /// How many milliseconds behind each instant of the system's clock it ticks, fewer than a frame lasts; where there is none, a frame's
    /// length apart from the start on.
    pub tick_ms: Option<u16>,
    pub ghost lead_high: { lead ≤ MAX_LEAD },
    pub ghost layout_every_low: { 1 ≤ layout_every },
    pub ghost out_port_low: { 1 ≤ out_port },
    pub ghost session_port_low: { 1 ≤ session_port },
}
