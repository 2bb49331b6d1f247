//! A source and a ticker of the trial.
ghost use Rattle.std.specs.Prelude.{◌≡◌, ◌≤◌, ℕ, length};

use pdc_threads::{Next, Numbered, Outcome, Source, Ticker};

/// Gives datagrams that are told in hexadecimal, one after the other.
#[derive(Drop)]
pub struct Listed {
    texts: &'static [&'static str],
    /// How many were given.
    done: usize,
}

impl Listed {
    /// These datagrams, none of which was given yet.
    pub fn of(texts: &'static [&'static str]) -> Listed {
        Listed { texts, done: 0 }
    }
}

/// The bytes that the text says, at the front of the buffer.
fn give(text: &str, buffer: &mut [u8]) -> Next
    ensures kept { length buffer.new ≡ length buffer.old }
    ensures datagram { (n : ℕ) → result ≡ Next.Datagram n → n ≤ length buffer.new }
    ensures fault { result ≡ Next.Fault → ⊥ }
{
    let len = text.len() / 2;
    if len > buffer.len() || hex::decode_to_slice(text, &mut buffer[..len]).is_err() {
        return Next::End;
    }
    Next::Datagram(len)
}

impl Source for Listed {
    ghost use Rattle.std.specs.Prelude.{◌-◌, length};

    ghost failures_of = { λ s. 0 };

    ghost row_left = { λ s. length s.texts.now - s.done };

    fn next(&mut self, buffer: &mut [u8]) -> Next {
        match self.texts.get(self.done).copied() {
            Some(text) => {
                self.done = self.done.saturating_add(1);
                give(text, buffer)
            }
            None => Next::End,
        }
    }

    fn answered(&mut self, _answer: Option<Numbered<Outcome>>) {}

    fn failures(&self) -> u64 {
        0
    }
}

/// Gives no tick: whoever lives the life ticks.
#[derive(Drop)]
pub struct Silent;

impl Ticker for Silent {
    fn next(&mut self) -> Option<u64> {
        None
    }
}
