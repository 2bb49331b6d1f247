//! What is wrong with words that the parser lets pass.

use crate::words::{CommandHelp, command_of};
use clap::Error;
use clap::error::ErrorKind;
use std::alloc::{AllocError, Global};

/// What is wrong with the words of a command. It owns nothing: its message is made once, where the words are refused.
#[derive(Clone, Copy)]
pub enum Wrong<'a> {
    /// A word is not a whole number from 1 to the greatest that is allowed.
    Number {
        /// Its name, as the help has it.
        name: &'static str,
        /// The word.
        text: &'a str,
        /// The greatest.
        most: u32,
    },
    /// The words name more ports than a simulated PMU sends to.
    TooManyPorts,
    /// A simulated PMU would send nowhere and serve nobody.
    NoPort,
}

/// The kind of what is wrong.
fn kind_of(wrong: &Wrong<'_>) -> ErrorKind {
    match wrong {
        Wrong::Number { .. } => ErrorKind::ValueValidation,
        Wrong::TooManyPorts => ErrorKind::TooManyValues,
        Wrong::NoPort => ErrorKind::MissingRequiredArgument,
    }
}

/// The message for it.
fn message_of(alloc: Global, wrong: &Wrong<'_>) -> Result<String, AllocError> {
    match wrong {
        Wrong::Number { name, text, most } => format!(in alloc;
            "invalid value '{text}' for '{name}': it must be a whole number from 1 to {most}"
        ),
        Wrong::TooManyPorts => { String::from_str(alloc, "'[PORT]...' takes at most 16 values") }
        Wrong::NoPort => String::from_str(alloc, "a PORT or --tcp is required"),
    }
}

/// What is wrong with the words of this command, as `clap` reports it.
///
/// # Errors
///
/// There is no memory.
pub fn error_of(
    alloc: Global,
    told: &CommandHelp<'_>,
    wrong: &Wrong<'_>,
) -> Result<Error, AllocError> {
    let message = message_of(alloc, wrong)?;
    command_of(alloc, told)?.error(kind_of(wrong), message.as_str())
}
