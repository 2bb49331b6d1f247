//! How the time tags of a stream are read.
ghost use Rattle.std.specs.Prelude.{◌≡◌, ◌≤◌, ◌<◌};
ghost use Rattle.pdc_frame.specs.Instant.{instant_of};
ghost use Rattle.pdc_frame.specs.declared.tag_limits.TheConstants.{COUNT_LIMIT, MAX_RATE};
ghost use Rattle.pdc_journal.specs.Head.{data_instant_in, instant_in};

use crate::head::is_data;
use pdc_frame::{COUNT_LIMIT, HEADER_LEN, MAX_RATE, instant, read_long};

/// Where SOC and FRACSEC stand in a frame (C37.118.2-2011, table 2).
const SOC: usize = 6;

const FRACSEC: usize = 10;

/// How the time tags of a stream are read: its frames a second, and the counts of FRACSEC in a second.
#[derive(Clone, Copy, Debug)]
pub struct Tags {
    /// The frames a second, 1 to 240.
    pub rate: u16,
    /// The counts of FRACSEC in a second, below 16777216.
    pub time_base: u32,
    pub ghost rate_low: { 1 ≤ rate },
    pub ghost rate_high: { rate ≤ MAX_RATE },
    pub ghost time_base_high: { time_base < COUNT_LIMIT },
}

impl Tags {
    /// The instant of the frame with this tag; none where it belongs to none.
    pub fn instant(self, soc: u32, frac: u32) -> Option<u64>
        requires { frac < COUNT_LIMIT }
        ensures { result ≡ instant_of soc frac self.time_base self.rate }
    {
        instant(soc, frac, self.time_base, u32::from(self.rate))
    }

    /// The instant of the time tag that these bytes hold, if they are a frame; none where they end before it, or it belongs to none.
    pub fn instant_of(self, bytes: &[u8]) -> Option<u64>
        ensures { result ≡ instant_in self.rate self.time_base bytes.now }
    {
        if bytes.len() < HEADER_LEN {
            return None;
        }
        self.instant(
            read_long(bytes, SOC),
            read_long(bytes, FRACSEC) % COUNT_LIMIT,
        )
    }

    /// The same where they begin as a data frame does; none where they do not.
    pub fn instant_of_data(self, bytes: &[u8]) -> Option<u64>
        ensures { result ≡ data_instant_in self.rate self.time_base bytes.now }
    {
        if is_data(bytes) {
            self.instant_of(bytes)
        } else {
            None
        }
    }
}
