//! Where datagrams come from.
ghost use Rattle.std.specs.Prelude.{◌≡◌, ◌≤◌, ◌<◌, ◌++◌, ◌∷◌, ℕ, List, [], length};
ghost use Rattle.pdc_ports.specs.Answers.{Answer};
ghost use Rattle.pdc_ports.specs.Failures.{HasRisen};
ghost use Rattle.pdc_ports.specs.Heard.{Heard, heard_by};

use crate::numbered::Numbered;
use pdc_arrival::Outcome;

/// What a source gives.
#[derive(Clone, Copy, Debug, PartialEq, Eq)]
pub enum Next {
    /// A datagram of so many bytes, which the buffer begins with.
    Datagram(usize),
    /// Nothing came.
    Idle,
    /// Nothing will come.
    End,
    /// Its device failed.
    Fault,
    /// It gave up waiting, as only a source of a test does.
    Stuck,
}

/// Where datagrams come from. However fast they come, a source gives only so many in a row: then it says once that nothing came, so that
/// whoever reads it looks whether it is to end. It may tell what it said: where `told source heard`, it said exactly this, in order. A
/// source that tells nothing says that of any.
pub trait Source {
    ghost told: { Self → List Heard → Type 0 } = { λ source heard. Unit {0} };

    // Where `was_answered source answers`, it took exactly these answers to its datagrams, in order. One that tells nothing says that of any.
    ghost was_answered: { Self → List Answer → Type 0 } = { λ source answers. Unit {0} };

    // how often its device failed, a counter
    ghost failures_of: { Self → ℕ };

    // how many datagrams it gives in a row at most, from now on
    ghost row_left: { Self → ℕ };

    /// The next datagram, written to the front of the buffer.
    fn next(&mut self, buffer: &mut [u8]) -> Next
        ensures kept { length buffer.new ≡ length buffer.old }
        ensures tells { (heard : List Heard) → told self.old heard →
            told self.new (heard ++ heard_by result buffer.new ∷ []) }
        ensures answers { (answers : List Answer) → was_answered self.old answers →
            was_answered self.new answers }
        ensures more { failures_of self.old ≤ failures_of self.new }
        ensures datagram { (n : ℕ) → result ≡ Next.Datagram n → n ≤ length buffer.new }
        ensures row { (n : ℕ) → result ≡ Next.Datagram n → row_left self.new < row_left self.old }
        ensures fault { result ≡ Next.Fault →
            HasRisen (failures_of self.old) (failures_of self.new) };

    /// Takes how the datagram was answered that it gave last, with the number of its step; none where it was not, for want of memory or of
    /// room in a counter, and then nothing more is asked of it. A source that wants to know nothing of it does nothing.
    fn answered(&mut self, answer: Option<Numbered<Outcome>>)
        ensures tells { (heard : List Heard) → told self.old heard → told self.new heard }
        ensures answers { (answers : List Answer) → was_answered self.old answers
            → was_answered self.new (answers ++ answer ∷ []) }
        ensures failures { failures_of self.old ≤ failures_of self.new }
        ensures row { row_left self.new ≤ row_left self.old };

    /// Whether it wants to be told, behind each of its datagrams, whether the lowest open row is whole. One that says nothing of it never does.
    fn wants_whole(&self) -> bool {
        false
    }

    /// Takes that the lowest open row has come whole: every stream that it waits for was taken. A source that wants to know nothing of it passes
    /// it over.
    fn whole(&mut self)
        ensures tells { (heard : List Heard) → told self.old heard → told self.new heard }
        ensures answers { (answers : List Answer) → was_answered self.old answers →
            was_answered self.new answers }
        ensures failures { failures_of self.old ≤ failures_of self.new }
        ensures row { row_left self.new ≤ row_left self.old }
    {}

    /// How often its device failed. It stays at its greatest value.
    fn failures(&self) -> u64
        ensures { result ≡ failures_of self.now };
}
