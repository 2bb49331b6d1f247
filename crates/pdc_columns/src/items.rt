//! A list that is copied over another.
ghost use Rattle.std.specs.Prelude.{◌≡◌, ◌≤◌, length};

use crate::MAX_COLUMNS;
use arrayvec::ArrayVec;

/// Makes these the items of a list. Where there were as many before, they are written over, and nothing is emptied first.
pub fn copy_items<T: Copy + Default + Drop>(kept: &mut ArrayVec<T, MAX_COLUMNS>, items: &[T])
    requires { length items.now ≤ MAX_COLUMNS }
    ensures { kept.new.items ≡ items.now }
{
    if kept.len() == items.len() {
        kept.as_mut_slice().copy_from_slice(items);
        return;
    }
    kept.clear();
    kept.try_extend_from_slice(items).unwrap();
}
