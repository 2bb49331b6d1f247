//! The programs that play scripts: their words on the command line are pairs, who plays and the file of the script.

use crate::Played;
use std::alloc::Global;
use std::io;
use std::process::ExitCode;
use std::rt::Files;

/// Who plays scripts, by the name of the player.
pub trait Stage {
    /// Lets the player of this name play a script; one of another name leaves it unplayed, which is not as wanted.
    ///
    /// # Errors
    ///
    /// A script that cannot be read, want of memory, or a standard error that cannot be written.
    fn play(
        &mut self,
        rt: &(impl Files + AllocGlobal + Eprint),
        alloc: Global,
        player: &str,
        script: &str,
    ) -> io::Result<Played>;
}

/// Plays the script of each pair of words, prints how many calls it has, and tells whether each answer was the wanted one.
///
/// # Errors
///
/// A script that cannot be read, want of memory, or a standard stream that cannot be written.
pub fn play_all<S: Stage>(
    rt: &(impl Files + AllocGlobal + Eprint + Print),
    alloc: Global,
    words: &[String],
    stage: &mut S,
) -> io::Result<ExitCode> {
    let mut status = ExitCode::SUCCESS;
    for pair in words.chunks(2) {
        if let [player, script] = pair {
            let played = stage.play(rt, alloc, player, script)?;
            println!(rt; "{player} {script}: {} played", played.calls)?;
            if !played.as_wanted {
                status = ExitCode::FAILURE;
            }
        }
    }
    Ok(status)
}
