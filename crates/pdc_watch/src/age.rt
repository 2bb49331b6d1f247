//! When data is old.
ghost use Rattle.std.specs.Prelude.{◌≡◌, ◌↔◌, IsTrue};
ghost use Rattle.pdc_watch.specs.Age.{IsOld, patience_of};

/// How long a stream of so many frames a second may be silent, in ms: a second and two frames.
pub fn patience(rate: u32) -> u64
    ensures { result ≡ patience_of rate }
{
    if rate == 0 {
        1000
    } else {
        1000 + 2000 / u64::from(rate)
    }
}

/// Whether what came then is old now, both in ms by a clock that is never set.
pub fn is_old(came: u64, now: u64, rate: u32) -> bool
    ensures { IsTrue result ↔ IsOld came now rate }
{
    now.saturating_sub(came) >= patience(rate)
}
