//! Where a replay halts, and the text of it.

use crate::begins::Unbegun;
use pdc_core::Ticked;
use pdc_life::Outcome;
use std::alloc::{AllocError, Global};
use std::io;
use std::io::Write;

/// What was not as recorded, with both sides.
#[derive(Debug, Drop)]
pub enum Difference {
    /// A datagram was for a stream that the life does not have.
    NoStream {
        /// The number of the stream, from 0.
        stream: u16,
    },
    /// A datagram that was not kept whole was not refused as what is no frame.
    NotKept {
        /// The number of its stream, from 0.
        stream: u16,
        /// What was recorded.
        recorded: Outcome,
    },
    /// A datagram was answered otherwise.
    Answer {
        /// The number of its stream, from 0.
        stream: u16,
        /// What was recorded.
        recorded: Outcome,
        /// What was replayed.
        replayed: Outcome,
    },
    /// A tick did otherwise.
    Tick {
        /// The instant that was now.
        now: u64,
        /// What was recorded.
        recorded: Ticked,
        /// What was replayed.
        replayed: Ticked,
    },
    /// Another row was popped, or none.
    Row {
        /// The instant that was recorded.
        recorded: Option<u64>,
        /// The instant that was replayed.
        replayed: Option<u64>,
    },
    /// The frame of a row was other.
    Frame {
        /// The instant of the row.
        instant: u64,
        /// The bytes that were recorded.
        recorded: Vec<u8>,
        /// The bytes that were replayed.
        replayed: Vec<u8>,
    },
    /// The frame of the layout was other.
    Layout {
        /// The bytes that were recorded.
        recorded: Vec<u8>,
        /// The bytes that were replayed.
        replayed: Vec<u8>,
    },
}

/// Why a replay halts.
#[derive(Debug, Drop)]
pub enum Halt {
    /// The step with this number was not as recorded.
    Differs {
        /// The number of the step; of a layout that of the last step before it.
        step: u64,
        /// What was not.
        what: Difference,
    },
    /// Steps are not in the record.
    Missing {
        /// The number of the first one.
        from: u64,
        /// The number of the first one that is there again.
        until: u64,
    },
    /// The entry of a step that was played already.
    OutOfOrder {
        /// The number that it has.
        step: u64,
        /// The number that was next.
        wanted: u64,
    },
    /// The record does not begin with the beginning of a life, and its first file carries no steps over.
    NotTheFirst {
        /// The number of the first step that it has; none where it does not even say so.
        step: Option<u64>,
    },
    /// A step that a file carries over is not answered as it was when nothing else is known: the replay cannot begin with that file.
    NotCarried {
        /// The number of the step.
        step: u64,
    },
    /// A file goes on with another life than the one before it.
    OtherLife,
    /// The life cannot be begun.
    Unbegun(Unbegun),
    /// No memory was left.
    Memory,
}

impl From<AllocError> for Halt {
    fn from(_error: AllocError) -> Halt {
        Halt::Memory
    }
}

impl From<Unbegun> for Halt {
    fn from(cause: Unbegun) -> Halt {
        Halt::Unbegun(cause)
    }
}

/// What a tick did.
fn print_ticked<W: Write>(writer: &mut W, side: &str, ticked: &Ticked) -> io::Result<()> {
    write!(writer, "{side} {} closed", ticked.closed)?;
    if let Some(change) = ticked.change {
        write!(writer, ", change {change}")?;
    }
    if ticked.used_up {
        write!(writer, ", no change number left")?;
    }
    Ok(())
}

/// A row that was popped, or none.
fn print_row<W: Write>(writer: &mut W, side: &str, instant: Option<u64>) -> io::Result<()> {
    match instant {
        Some(instant) => write!(writer, "{side} the row of instant {instant}"),
        None => write!(writer, "{side} no row"),
    }
}

/// Bytes of both sides, in hexadecimal, a line each.
fn print_both<W: Write>(
    writer: &mut W,
    alloc: Global,
    recorded: &[u8],
    replayed: &[u8],
) -> io::Result<()> {
    let recorded = hex::encode_upper(alloc, recorded)?;
    let replayed = hex::encode_upper(alloc, replayed)?;
    writeln!(writer, "  recorded {recorded}")?;
    writeln!(writer, "  replayed {replayed}")
}

/// The difference, with both sides.
fn print_difference<W: Write>(
    writer: &mut W,
    alloc: Global,
    step: u64,
    what: &Difference,
) -> io::Result<()> {
    match what {
        Difference::NoStream { stream } => {
            writeln!(
                writer,
                "step {step} differs: a datagram for stream {stream}, which the life does not have"
            )
        }
        Difference::NotKept { stream, recorded } => writeln!(
            writer,
            "step {step} differs: a datagram for stream {stream} was not kept whole: recorded {}, and only what is no frame is kept so",
            recorded.text()
        ),
        Difference::Answer {
            stream,
            recorded,
            replayed,
        } => writeln!(
            writer,
            "step {step} differs: a datagram for stream {stream}: recorded {}, replayed {}",
            recorded.text(),
            replayed.text()
        ),
        Difference::Tick {
            now,
            recorded,
            replayed,
        } => {
            write!(writer, "step {step} differs: a tick, now {now}: ")?;
            print_ticked(writer, "recorded", recorded)?;
            print_ticked(writer, "; replayed", replayed)?;
            writeln!(writer)
        }
        Difference::Row { recorded, replayed } => {
            write!(writer, "step {step} differs: a pop: ")?;
            print_row(writer, "recorded", *recorded)?;
            print_row(writer, "; replayed", *replayed)?;
            writeln!(writer)
        }
        Difference::Frame {
            instant,
            recorded,
            replayed,
        } => {
            writeln!(
                writer,
                "step {step} differs: the frame of instant {instant}"
            )?;
            print_both(writer, alloc, recorded, replayed)
        }
        Difference::Layout { recorded, replayed } => {
            writeln!(writer, "the layout after step {step} differs")?;
            print_both(writer, alloc, recorded, replayed)
        }
    }
}

/// Writes why a replay halts, a line, and where bytes differ a line of each side behind it.
///
/// # Errors
///
/// What the writer answers, or want of memory.
pub fn print_halt<W: Write>(writer: &mut W, alloc: Global, halt: &Halt) -> io::Result<()> {
    match halt {
        Halt::Differs { step, what } => print_difference(writer, alloc, *step, what),
        Halt::Missing { from, until } => {
            let last = until.saturating_sub(1);
            writeln!(
                writer,
                "steps {from} to {last} are not in the record: replayed up to there"
            )
        }
        Halt::OutOfOrder { step, wanted } => {
            writeln!(writer, "step {step} stands where step {wanted} is wanted")
        }
        Halt::NotTheFirst { step: Some(step) } => writeln!(
            writer,
            "the record begins with step {step}, and its file carries nothing over: the files before it are needed to replay it"
        ),
        Halt::NotTheFirst { step: None } => {
            writeln!(writer, "the record does not say how the life began")
        }
        Halt::NotCarried { step } => writeln!(
            writer,
            "step {step}, which the file carries over, is answered otherwise: the files before it are needed to replay it"
        ),
        Halt::OtherLife => writeln!(writer, "the file is of another life than the one before it"),
        Halt::Unbegun(cause) => writeln!(writer, "the life cannot be begun: {cause}"),
        Halt::Memory => writeln!(writer, "out of memory"),
    }
}
