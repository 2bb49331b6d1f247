//! What is said of a PMU on one path in a tenth of a second.
ghost use Rattle.std.specs.Prelude.{◌≡◌, ◌≤◌};
ghost use Rattle.pdc_watch.specs.Presence.{cell_of, due_in};
ghost use Rattle.pdc_watch.specs.declared.cell.TheConstants.{MAX_RATE};

/// The most frames a second of a stream.
pub const MAX_RATE: u32 = 240;

/// What a cell of the matrix says.
#[derive(Clone, Copy, PartialEq, Eq)]
pub enum Cell {
    /// No instant lies in this tenth of a second, at the rate of the stream.
    NotDue,
    /// No frame came with the PMU's data.
    Absent,
    /// Frames came with the PMU's data, and fewer than were due.
    Gaps,
    /// As many came as were due.
    Whole,
}

impl Cell {
    /// What so many frames with the PMU's data say, where so many were due.
    pub fn of(came: u32, due: u32) -> Cell
        ensures { result ≡ cell_of came due }
    {
        if due == 0 {
            Cell::NotDue
        } else if came == 0 {
            Cell::Absent
        } else if came < due {
            Cell::Gaps
        } else {
            Cell::Whole
        }
    }

    /// The letter that stands for it: `-`, `a`, `g` or `w`.
    pub fn letter(self) -> char {
        match self {
            Cell::NotDue => '-',
            Cell::Absent => 'a',
            Cell::Gaps => 'g',
            Cell::Whole => 'w',
        }
    }
}

/// How many instants lie in the tenth of a second of this number since 1970, at `rate` frames a second.
pub fn due(tenth: u64, rate: u32) -> u32
    requires { rate ≤ MAX_RATE }
    ensures { result ≡ due_in tenth rate }
{
    let part = (tenth % 10) as u32;
    ((part + 1) * rate + 9) / 10 - (part * rate + 9) / 10
}
