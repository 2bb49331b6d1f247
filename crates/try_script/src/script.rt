//! Scripts of calls with their answers.
//!
//! A line is a call and its answer, as `put 0 1 0 sent -> Taken`. A line `[NAME]` begins the scenario of this name. It is
//! passed over, and so are empty lines and lines that begin with `#`.

use std::alloc::{AllocError, Global};
use std::rt::Files;
use std::{fs, io};

/// Who plays the calls of a script.
pub trait Player {
    /// Plays the call, and tells what it answered.
    ///
    /// # Errors
    ///
    /// [`AllocError`] where there is no room and none is got.
    fn play(&mut self, alloc: Global, call: &str) -> Result<String, AllocError>;
}

/// How a script was played.
#[derive(Clone, Copy, Debug)]
pub struct Played {
    /// The number of calls.
    pub calls: u32,
    /// Each answer was the wanted one.
    pub as_wanted: bool,
}

impl Played {
    /// A script without calls, read well or not.
    pub fn of(as_wanted: bool) -> Played {
        Played {
            calls: 0,
            as_wanted,
        }
    }
}

/// Complains of an answer that is not the wanted one.
fn complain(
    rt: &impl Eprint,
    script: &str,
    number: usize,
    call: &str,
    answer: &str,
    wanted: &str,
) -> io::Result<()> {
    eprintln!(rt; "{script}:{number}: {call}: {answer}, not {wanted}")
}

/// Plays a call and complains where its answer is not the wanted one; tells whether it is.
fn play_line<P: Player>(
    rt: &impl Eprint,
    alloc: Global,
    script: &str,
    number: usize,
    text: &str,
    player: &mut P,
) -> io::Result<bool> {
    let (call, wanted) = text.split_once(" -> ").unwrap_or((text, ""));
    let answer = player.play(alloc, call)?;
    let is_wanted = answer.as_str() == wanted;
    if !is_wanted {
        complain(rt, script, number, call, &answer, wanted)?;
    }
    Ok(is_wanted)
}

/// Plays the calls of the script in this file, the first of them first, and complains of each answer that is not the wanted one.
///
/// # Errors
///
/// A file that cannot be read, want of memory, or a standard error that cannot be written.
pub fn play_script<P: Player>(
    rt: &(impl Files + AllocGlobal + Eprint),
    alloc: Global,
    script: &str,
    player: &mut P,
) -> io::Result<Played> {
    let text = fs::read_to_string(rt, script)?;
    let mut played = Played::of(true);
    for (index, line) in text.lines().enumerate() {
        if line.is_empty() || line.starts_with('#') || line.starts_with('[') {
            continue;
        }
        if !play_line(rt, alloc, script, index.saturating_add(1), line, player)? {
            played.as_wanted = false;
        }
        played.calls = played.calls.saturating_add(1);
    }
    Ok(played)
}
