//! Lists that are copied over others at the places of some instants.
ghost use Rattle.std.specs.Prelude.{◌≡◌, length};
ghost use Rattle.pdc_table.specs.RingRows.{copied};

use crate::circle::Circle;
use pdc_open_row::{CopyFrom, HeldQueue};

/// Makes what stands at the places of these instants copies of what others have there.
pub fn copy_at<T: CopyFrom>(mine: &mut [T], others: &[T], circle: &Circle, instants: &[u64])
    requires size { length mine.old ≡ circle.now.window }
    requires others { length others.now ≡ circle.now.window }
    ensures { (default : T) → mine.new ≡ copied default circle.now.window instants.now others.now
        mine.old }
{
    for instant in instants {
        let place = circle.place_of(*instant);
        mine[place].copy_from(&others[place]);
    }
}

/// The same for instants that stand in a queue.
pub fn copy_at_queued<T: CopyFrom>(
    mine: &mut [T],
    others: &[T],
    circle: &Circle,
    instants: &HeldQueue<u64>,
)
    requires size { length mine.old ≡ circle.now.window }
    requires others { length others.now ≡ circle.now.window }
    ensures { (default : T) → mine.new ≡ copied default circle.now.window instants.now.items
        others.now mine.old }
{
    for index in 0..instants.len() {
        let place = circle.place_of(*instants.item(index));
        mine[place].copy_from(&others[place]);
    }
}
