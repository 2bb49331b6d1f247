//! Frequency and its change over the last minute.
ghost use Rattle.std.specs.Prelude.{◌≡◌, length};
ghost use Rattle.pdc_watch.specs.declared.strip.TheConstants.{KEPT};

use std::alloc::{AllocError, Global};

/// How many points are shown: five in each of 60 seconds.
pub const POINTS: usize = 300;

/// How many are kept.
const KEPT: usize = 320;

/// What is kept of a fifth of a second.
#[derive(Clone, Copy)]
pub struct Point {
    /// Its number since 1970.
    pub fifth: u64,
    /// FREQ: by how many mHz the frequency differs from nominal.
    pub freq: i16,
    /// DFREQ: hundredths of a hertz a second.
    pub dfreq: i16,
}

/// The last minute: a ring, in which each fifth of a second has the place of its remainder by 320.
#[derive(Drop)]
pub struct Strip {
    points: Vec<Point>,
    pub ghost size: { length points.items ≡ KEPT },
}

impl Strip {
    /// No point yet.
    ///
    /// # Errors
    ///
    /// [`AllocError`] where there is no memory for the ring, which is all that it ever takes.
    pub fn new(alloc: Global) -> Result<Strip, AllocError> {
        let blank = Point {
            fifth: 0,
            freq: 0,
            dfreq: 0,
        };
        Ok(Strip {
            points: vec![in alloc; blank; KEPT]?,
        })
    }

    /// Keeps a point in place of the one that it takes the place of.
    pub fn keep(&mut self, point: Point) {
        self.points[(point.fifth % 320) as usize] = point;
    }

    /// The point of this fifth of a second, if there is one.
    pub fn at(&self, fifth: u64) -> Option<Point> {
        let point = self.points[(fifth % 320) as usize];
        if point.fifth == fifth {
            Some(point)
        } else {
            None
        }
    }
}
