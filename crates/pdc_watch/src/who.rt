//! Whose stream it is.

/// Whose stream it is: node A's, node B's or the merger's.
#[derive(Clone, Copy, PartialEq, Eq)]
pub enum Who {
    A,
    B,
    M,
}

/// One for each of the three streams.
#[derive(Drop)]
pub struct Three<T> {
    pub a: T,
    pub b: T,
    pub m: T,
}

impl<T> Three<T> {
    /// The one of this stream.
    pub fn of(&self, who: Who) -> &T {
        match who {
            Who::A => &self.a,
            Who::B => &self.b,
            Who::M => &self.m,
        }
    }

    /// The one of this stream, to be changed.
    pub fn of_mut(&mut self, who: Who) -> &mut T {
        match who {
            Who::A => &mut self.a,
            Who::B => &mut self.b,
            Who::M => &mut self.m,
        }
    }
}
