//! Copies in place, which take no memory.
ghost use Rattle.std.specs.Prelude.{◌≡◌, length};

/// What can be made a copy of another one in place. It takes no memory.
pub trait CopyFrom {
    /// Makes this a copy of the other one.
    fn copy_from(&mut self, other: &Self)
        ensures { self.new ≡ other.now };
}

/// Makes each of these a copy of the one that has its place among the others, which are as many.
pub fn copy_each<T: CopyFrom>(mine: &mut [T], others: &[T])
    requires { length mine.old ≡ length others.now }
    ensures { mine.new ≡ others.now }
{
    for place in 0..others.len() {
        mine[place].copy_from(&others[place]);
    }
}
