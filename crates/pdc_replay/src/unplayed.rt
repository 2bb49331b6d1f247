//! Steps that were not compared.

use std::io;
use std::io::Write;

/// Steps that were not compared, since some are not in the record.
#[derive(Clone, Copy, Debug, PartialEq, Eq)]
pub struct Unplayed {
    /// The number of the first step that is not in the record,
    pub from: u64,
    /// and of the first one that is there again.
    pub until: u64,
    /// The number of the first step that was compared again: with it a file begins that carries over what a core must know.
    pub again: Option<u64>,
}

/// Writes which steps were not compared, and why, without the end of the line.
///
/// # Errors
///
/// What the writer answers.
pub fn print_unplayed<W: Write>(writer: &mut W, unplayed: &Unplayed) -> io::Result<()> {
    let (from, last) = (unplayed.from, unplayed.until.saturating_sub(1));
    write!(writer, "steps {from} to {last} are not in the record: ")?;
    match unplayed.again {
        Some(again) => {
            let behind = again.saturating_sub(1);
            write!(writer, "steps {from} to {behind} were not compared")
        }
        None => write!(writer, "nothing from step {from} on was compared"),
    }
}
