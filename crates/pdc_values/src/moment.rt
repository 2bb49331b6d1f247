//! Times, as text.
ghost use Rattle.std.specs.Prelude.{◌≡◌, ◌*◌, ◌/◌, ◌<◌, ◌≤◌, Some, None};

use crate::scaled::append_decimals;
use jiff::Timestamp;
use std::alloc::{AllocError, Global};

/// The microseconds of a second.
pub const MICROSECONDS: u64 = 1_000_000;

/// The whole microseconds that `frac` counts are, of which `time_base` are a second (C37.118.2-2011, 6.2), rounded down; `None` where the
/// count does not lie in its second.
pub fn microseconds(frac: u32, time_base: u32) -> Option<u64>
    ensures inside { frac < time_base → result ≡ Some (frac * 1000000 / time_base) }
    ensures outside { time_base ≤ frac → result ≡ None }
{
    if frac >= time_base {
        return None;
    }
    Some(u64::from(frac) * MICROSECONDS / u64::from(time_base))
}

/// The second whose text was asked for last: a stream has many frames of one second.
#[derive(Drop)]
pub struct SecondText {
    soc: u32,
    /// As `2006-06-06T09:00:00`.
    text: String,
}

/// The second as text, without the `Z` at its end: `None` where it is too far off for a calendar, which no SOC is.
fn text_of(alloc: Global, soc: u32) -> Result<String, AllocError> {
    let mut text = String::new(alloc);
    if let Ok(second) = Timestamp::from_second(i64::from(soc)) {
        text = format!(in alloc; "{second}")?;
        text.pop();
    }
    Ok(text)
}

impl SecondText {
    /// The text of 1970.
    ///
    /// # Errors
    ///
    /// [`AllocError`] where there is no room and none is got.
    pub fn new(alloc: Global) -> Result<SecondText, AllocError> {
        Ok(SecondText {
            soc: 0,
            text: text_of(alloc, 0)?,
        })
    }

    /// Appends the time in UTC, as `2006-06-06T09:00:00.016817Z`.
    ///
    /// # Errors
    ///
    /// [`AllocError`] where there is no room and none is got.
    pub fn append(
        &mut self,
        alloc: Global,
        soc: u32,
        micros: u64,
        out: &mut Vec<u8>,
    ) -> Result<(), AllocError>
        requires { micros < MICROSECONDS }
    {
        if soc != self.soc {
            self.text = text_of(alloc, soc)?;
            self.soc = soc;
        }
        out.extend_from_slice(self.text.as_bytes())?;
        out.extend_from_slice(b".")?;
        append_decimals(micros, MICROSECONDS, out)?;
        out.extend_from_slice(b"Z")
    }
}
