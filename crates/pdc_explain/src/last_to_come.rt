//! Which stream's data came last of all for each instant, and how long the others were there by then.
ghost use Rattle.std.specs.Prelude.{◌≡◌, ◌<◌};
ghost use Rattle.pdc_explain.specs.Adding.{added_by, thousandths_of};

use crate::spread::{STEP, STEPS, count_at, place_of, share, uncount_at, zeros};
use std::alloc::{AllocError, Global};

/// How many instants are looked back upon. No data is taken that is further back.
const SPAN: u64 = 4096;

/// Data of a stream that came.
#[derive(Clone, Copy)]
pub struct Heard {
    pub stream: usize,
    /// The number of its step,
    pub step: u64,
    /// and when it came, in nanoseconds since 1970.
    pub time: u64,
}

/// An instant of which data was taken.
#[derive(Clone, Copy)]
struct Open {
    instant: u64,
    /// Of which streams, a bit each.
    streams: u64,
    /// What came last, by the numbers of the steps,
    last: Option<Heard>,
    /// and what came before it.
    before: Option<Heard>,
}

/// What the data of one stream added to the instants for which it came last.
#[derive(Drop)]
pub struct Additions {
    /// How many times it was each length in tenths of a millisecond, the last of them all that are longer.
    lengths: Vec<u64>,
    /// For how many instants it came last.
    pub count: u64,
}

/// Which stream's data came last for each instant of which that of two or more was taken, and what it added.
#[derive(Drop)]
pub struct LastToCome {
    alloc: Global,
    open: Vec<Open>,
    added: Vec<Additions>,
}

/// How many nanoseconds data added that came last, where the one before it came then.
fn added(before: u64, last: u64) -> u64
    ensures { result ≡ added_by before last }
{
    if before >= 1 {
        last.saturating_sub(before)
    } else {
        0
    }
}

/// How many thousandths of a whole this part is, to the nearest.
fn thousandths(part: u64, whole: u64) -> u128
    requires { 0 < whole }
    ensures { result ≡ thousandths_of part whole }
{
    (u128::from(part) * 1000 + u128::from(whole) / 2) / u128::from(whole)
}

/// The bit of a stream; none of one that there is not.
fn bit_of(stream: usize) -> u64 {
    match u32::try_from(stream) {
        Ok(place) => 1_u64.checked_shl(place).unwrap_or(0),
        Err(_) => 0,
    }
}

/// Whether data came behind other data, if there was any.
fn is_behind(heard: Heard, other: Option<Heard>) -> bool {
    match other {
        Some(other) => other.step < heard.step,
        None => true,
    }
}

impl Open {
    /// Nothing was taken of it.
    fn new(instant: u64) -> Open {
        Open {
            instant,
            streams: 0,
            last: None,
            before: None,
        }
    }

    /// Data was taken.
    fn take(&mut self, heard: Heard) {
        if is_behind(heard, self.last) {
            self.before = self.last;
            self.last = Some(heard);
        } else if is_behind(heard, self.before) {
            self.before = Some(heard);
        }
    }

    /// Which stream's data came last, and the place of what it added among the lengths; none where one stream is alone.
    fn addition(&self) -> Option<(usize, u64)> {
        let (last, before) = (self.last?, self.before?);
        let tenths = added(before.time, last.time) / STEP;
        Some((last.stream, tenths.min(STEPS)))
    }
}

impl Additions {
    /// The length that so many in a thousand are not above, in tenths of a millisecond.
    pub fn tenths(&self, thousandths: u64) -> u64 {
        place_of(&self.lengths, share(self.count, thousandths))
    }
}

impl LastToCome {
    /// Nothing was taken yet.
    ///
    /// # Errors
    ///
    /// [`AllocError`] where there is no memory.
    pub fn new(alloc: Global) -> Result<LastToCome, AllocError> {
        let mut open = Vec::new(alloc);
        for _ in 0..SPAN {
            open.push(Open::new(0))?;
        }
        Ok(LastToCome {
            alloc,
            open,
            added: Vec::new(alloc),
        })
    }

    /// A life with so many streams begins: what was taken before counts as it is, and nothing is added to it.
    ///
    /// # Errors
    ///
    /// [`AllocError`] where there is no memory.
    pub fn begin(&mut self, streams: usize) -> Result<(), AllocError> {
        for open in self.open.as_mut_slice() {
            *open = Open::new(0);
        }
        for _ in self.added.len()..streams {
            self.added.push(Additions {
                lengths: zeros(self.alloc, STEPS + 1)?,
                count: 0,
            })?;
        }
        Ok(())
    }

    /// What is known of an instant; none where it is too far back.
    fn open_of(&self, instant: u64) -> Option<Open> {
        let open = self
            .open
            .as_slice()
            .get((instant % SPAN) as usize)
            .copied()?;
        if open.instant == instant {
            return Some(open);
        }
        if open.instant > instant {
            None
        } else {
            Some(Open::new(instant))
        }
    }

    /// The stream came last once more, with a length at this place.
    fn count(&mut self, stream: usize, place: u64) {
        if let Some(added) = self.added.as_mut_slice().get_mut(stream) {
            count_at(&mut added.lengths, place);
            added.count = added.count.saturating_add(1);
        }
    }

    /// It did not come last after all.
    fn uncount(&mut self, stream: usize, place: u64) {
        if let Some(added) = self.added.as_mut_slice().get_mut(stream) {
            uncount_at(&mut added.lengths, place);
            added.count = added.count.saturating_sub(1);
        }
    }

    /// Data was taken for an instant. Of each stream the first counts.
    pub fn take(&mut self, instant: u64, heard: Heard) {
        let Some(mut open) = self.open_of(instant) else {
            return;
        };
        let bit = bit_of(heard.stream);
        if open.streams & bit != 0 {
            return;
        }
        if let Some((stream, place)) = open.addition() {
            self.uncount(stream, place);
        }
        open.streams |= bit;
        open.take(heard);
        if let Some((stream, place)) = open.addition() {
            self.count(stream, place);
        }
        if let Some(kept) = self.open.as_mut_slice().get_mut((instant % SPAN) as usize) {
            *kept = open;
        }
    }

    /// What the data of a stream added.
    pub fn of_stream(&self, stream: usize) -> Option<&Additions> {
        self.added.as_slice().get(stream)
    }

    /// For how many thousandths of the instants of which two or more streams were taken, this one's data came last; none where there are none.
    pub fn share_of(&self, additions: &Additions) -> Option<u64> {
        let mut instants: u64 = 0;
        for each in &self.added {
            instants = instants.saturating_add(each.count);
        }
        if instants > 0 {
            u64::try_from(thousandths(additions.count, instants)).ok()
        } else {
            None
        }
    }
}
