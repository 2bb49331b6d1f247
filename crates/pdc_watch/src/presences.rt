//! The rows of the matrix.
ghost use Rattle.std.specs.Prelude.{◌≤◌};
ghost use Rattle.pdc_watch.specs.declared.cell.TheConstants.{MAX_RATE};

use crate::presence::Presence;
use crate::shown::ShownPresence;
use crate::who::Three;
use std::alloc::{AllocError, Global};

/// How many tenths of seconds a row of the matrix has: 20 seconds.
pub const CELLS: u64 = 200;

/// The row of the matrix of a PMU on one stream, from this tenth on.
fn row_of(
    alloc: Global,
    name: &'static str,
    presence: &Presence,
    rate: u32,
    from: u64,
) -> Result<ShownPresence, AllocError>
    requires { rate ≤ MAX_RATE }
{
    let mut cells = String::new(alloc);
    let mut stats = Vec::new(alloc);
    let mut last = 0u16;
    for place in 0..CELLS {
        let tenth = from.saturating_add(place);
        cells.push(presence.cell(tenth, rate).letter())?;
        if let Some(stat) = presence.stat(tenth) {
            if stat != last {
                stats.push([place as u32, u32::from(stat)])?;
                last = stat;
            }
        }
    }
    Ok(ShownPresence {
        stream: name,
        cells,
        stats,
    })
}

/// The rows of a PMU.
pub fn rows_of(
    alloc: Global,
    presence: &Three<Presence>,
    rate: u32,
    from: u64,
) -> Result<Vec<ShownPresence>, AllocError>
    requires { rate ≤ MAX_RATE }
{
    let mut rows = Vec::new(alloc);
    rows.push(row_of(alloc, "A", &presence.a, rate, from)?)?;
    rows.push(row_of(alloc, "B", &presence.b, rate, from)?)?;
    rows.push(row_of(alloc, "M", &presence.m, rate, from)?)?;
    Ok(rows)
}
