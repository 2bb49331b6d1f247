//! A disk that fails from a chosen call on, for tests of every place at which a device may fail.
ghost use Rattle.std.specs.Prelude.{◌≡◌, ◌+◌, ◌-◌, ◌<◌, ◌≤◌, ◌↔◌, length, slice_range, IfOk};
ghost use Rattle.std.specs.Prelude.{IsErr, OnOk};
ghost use Rattle.pdc_disk.specs.Disk.{written, AllSettled, HasCause, IsTorn, StaySettled};
ghost use Rattle.pdc_disk.specs.Disk.{StaySettledBut};

use crate::disk::{Disk, DiskFault};

/// A disk that passes a number of calls on to the one behind it, and then fails each further one.
/// `len`, `read_at`, `write_at` and `sync` are calls.
#[derive(Drop)]
pub struct FuseDisk<D> {
    inner: D,
    calls_left: u64,
    failures: u64,
}

impl<D> FuseDisk<D> {
    ghost use Rattle.pdc_disk.specs.FuseDisk.{calls_left_of, failures_of, inner_of};

    /// Puts a disk behind a fuse that passes this many calls.
    pub fn new(inner: D, calls: u64) -> Self
        ensures inner { inner_of result ≡ inner }
        ensures calls { calls_left_of result ≡ calls }
        ensures failures { failures_of result ≡ 0 }
    {
        FuseDisk {
            inner,
            calls_left: calls,
            failures: 0,
        }
    }

    /// The disk behind the fuse, as the calls that were passed left it.
    pub fn into_inner(self) -> D
        ensures { result ≡ inner_of self }
    {
        self.inner
    }

    /// How many more calls are passed on.
    pub fn calls_left(&self) -> u64
        ensures { result ≡ calls_left_of self.now }
    {
        self.calls_left
    }
}

/// Uses a call up, or fails where none is left.
fn burn(calls_left: &mut u64, failures: &mut u64) -> Result<(), DiskFault>
    ensures blown { IsErr result ↔ (calls_left.old ≡ 0) }
    ensures left { calls_left.new ≡ calls_left.old - 1 }
    ensures cause { HasCause failures.old failures.new result }
{
    if *calls_left == 0 {
        *failures = failures.saturating_add(1);
        return Err(DiskFault);
    }
    *calls_left -= 1;
    Ok(())
}

/// Counts a fault of the disk behind.
fn counted<T>(failures: &mut u64, answer: Result<T, DiskFault>) -> Result<T, DiskFault>
    ensures same { result ≡ answer }
    ensures cause { HasCause failures.old failures.new result }
{
    if answer.is_err() {
        *failures = failures.saturating_add(1);
    }
    answer
}

impl<D: Disk> Disk for FuseDisk<D> {
    ghost use Rattle.pdc_disk.specs.FuseDisk.{failures_of, inner_of, Burns};

    ghost seen = { λ fuse. D.seen (inner_of fuse) };

    ghost is_settled = { λ fuse. D.is_settled (inner_of fuse) };

    ghost failures = { failures_of };

    ghost safe = { 0 };

    fn len(&mut self) -> Result<u64, DiskFault>
        ensures burns { Burns D.failures self.old self.new result (0 < D.safe) }
        ensures len { IfOk result (λ len. len ≡ length (D.seen (inner_of self.old))) }
        ensures seen { D.seen (inner_of self.new) ≡ D.seen (inner_of self.old) }
        ensures settled { StaySettled
            (D.is_settled (inner_of self.old)) (D.is_settled (inner_of self.new)) }
        ensures cause { HasCause (failures_of self.old) (failures_of self.new) result }
    {
        burn(&mut self.calls_left, &mut self.failures)?;
        counted(&mut self.failures, self.inner.len())
    }

    fn read_at(&mut self, at: u64, out: &mut [u8]) -> Result<(), DiskFault>
        requires { at + length out.old ≤ length (D.seen (inner_of self.old)) }
        ensures burns { Burns D.failures self.old self.new result
            ((0 < D.safe) × (at + length out.old ≤ D.safe)) }
        ensures bytes { OnOk result
            (out.new ≡ slice_range (D.seen (inner_of self.old)) at (at + length out.old)) }
        ensures seen { D.seen (inner_of self.new) ≡ D.seen (inner_of self.old) }
        ensures settled { StaySettled
            (D.is_settled (inner_of self.old)) (D.is_settled (inner_of self.new)) }
        ensures cause { HasCause (failures_of self.old) (failures_of self.new) result }
    {
        burn(&mut self.calls_left, &mut self.failures)?;
        counted(&mut self.failures, self.inner.read_at(at, out))
    }

    fn write_at(&mut self, at: u64, bytes: &[u8]) -> Result<(), DiskFault>
        requires { at ≤ length (D.seen (inner_of self.old)) }
        ensures burns { Burns D.failures self.old self.new result
            ((0 < D.safe) × (at + length bytes.now ≤ D.safe)) }
        ensures written { OnOk result
            (D.seen (inner_of self.new) ≡ written (D.seen (inner_of self.old)) at bytes.now) }
        ensures torn { IsTorn
            (D.seen (inner_of self.old)) at (length bytes.now) (D.seen (inner_of self.new)) }
        ensures settled { StaySettledBut at (length bytes.now)
            (D.is_settled (inner_of self.old)) (D.is_settled (inner_of self.new)) }
        ensures cause { HasCause (failures_of self.old) (failures_of self.new) result }
    {
        burn(&mut self.calls_left, &mut self.failures)?;
        counted(&mut self.failures, self.inner.write_at(at, bytes))
    }

    fn sync(&mut self) -> Result<(), DiskFault>
        ensures burns { Burns D.failures self.old self.new result (0 < D.safe) }
        ensures durable { OnOk result (AllSettled (D.is_settled (inner_of self.new))) }
        ensures seen { D.seen (inner_of self.new) ≡ D.seen (inner_of self.old) }
        ensures settled { StaySettled
            (D.is_settled (inner_of self.old)) (D.is_settled (inner_of self.new)) }
        ensures cause { HasCause (failures_of self.old) (failures_of self.new) result }
    {
        burn(&mut self.calls_left, &mut self.failures)?;
        counted(&mut self.failures, self.inner.sync())
    }

    fn failures(&self) -> u64 {
        self.failures
    }
}
