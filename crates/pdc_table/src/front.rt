//! Whether an instant is near the one that is held.
ghost use Rattle.std.specs.Prelude.{◌≡◌};
ghost use Rattle.pdc_open_row.specs.pdc_row.Rising.{is_near_any};

/// Whether the instant that is held, if there is one, is less than the window away.
pub fn is_near(held: Option<u64>, window: u64, instant: u64) -> bool
    ensures { result ≡ is_near_any window instant held }
{
    match held {
        Some(held) => held.abs_diff(instant) < window,
        None => true,
    }
}
