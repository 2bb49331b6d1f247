//! A disk that fails once and then works.
ghost use Rattle.std.specs.Prelude.{◌≡◌, IsOk};
ghost use Rattle.pdc_disk.specs.Disk.{HasCause};

use pdc_disk::{Disk, DiskFault};

/// A disk that passes each call on to the one behind it but one, which fails.
#[derive(Drop)]
pub struct OnceDisk<D> {
    inner: D,
    calls_left: u64,
    is_blown: bool,
    failures: u64,
}

impl<D> OnceDisk<D> {
    /// The call after so many fails.
    pub fn new(inner: D, calls: u64) -> Self {
        OnceDisk {
            inner,
            calls_left: calls,
            is_blown: false,
            failures: 0,
        }
    }
}

/// Fails where this call is to.
fn pass(calls_left: &mut u64, is_blown: &mut bool, failures: &mut u64) -> Result<(), DiskFault>
    ensures { HasCause failures.old failures.new result }
{
    if *is_blown {
        return Ok(());
    }
    if *calls_left == 0 {
        *is_blown = true;
        *failures = failures.saturating_add(1);
        return Err(DiskFault);
    }
    *calls_left -= 1;
    Ok(())
}

/// Counts a fault of the disk behind.
fn counted<T>(failures: &mut u64, answer: Result<T, DiskFault>) -> Result<T, DiskFault>
    ensures same { result ≡ answer }
    ensures cause { HasCause failures.old failures.new result }
{
    if answer.is_err() {
        *failures = failures.saturating_add(1);
    }
    answer
}

impl<D: Disk> Disk for OnceDisk<D> {
    ghost seen = { λ disk. D.seen disk.inner };

    ghost is_settled = { λ disk. D.is_settled disk.inner };

    ghost failures = { λ disk. disk.failures };

    ghost safe = { 0 };

    fn len(&mut self) -> Result<u64, DiskFault> {
        pass(&mut self.calls_left, &mut self.is_blown, &mut self.failures)?;
        counted(&mut self.failures, self.inner.len())
    }

    fn read_at(&mut self, at: u64, out: &mut [u8]) -> Result<(), DiskFault> {
        pass(&mut self.calls_left, &mut self.is_blown, &mut self.failures)?;
        counted(&mut self.failures, self.inner.read_at(at, out))
    }

    fn write_at(&mut self, at: u64, bytes: &[u8]) -> Result<(), DiskFault> {
        pass(&mut self.calls_left, &mut self.is_blown, &mut self.failures)?;
        counted(&mut self.failures, self.inner.write_at(at, bytes))
    }

    fn sync(&mut self) -> Result<(), DiskFault> {
        pass(&mut self.calls_left, &mut self.is_blown, &mut self.failures)?;
        counted(&mut self.failures, self.inner.sync())
    }

    fn failures(&self) -> u64 {
        self.failures
    }
}
