//! `pdc replay`.

use crate::comparing::compare;
use crate::plain::played_plainly;
use crate::printing::{Disk, PIECE, Tells, status_of, walk};
use crate::words::Replayed;
use crate::{DONE, FAILED, REFUSED};
use pdc_compare::{
    Comparison, Files, Grouped, Misfit, Takes, Verdict, group_files, halt_text, tell_unplayed,
    text_of,
};
use pdc_record::{Entry, What};
use pdc_replay::{Halt, Player};
use std::alloc::{AllocError, Global};
use std::io;
use std::io::Write;

/// What plays the entries.
#[derive(Drop)]
struct Playing {
    alloc: Global,
    player: Player,
    /// The frames are printed.
    frames: bool,
    /// Why it halted.
    halt: Option<Halt>,
    /// What is to be printed.
    out: Vec<u8>,
}

/// The frame that an entry has.
fn frame_of<'a>(entry: &Entry<'a>) -> Option<&'a [u8]> {
    match entry.what {
        What::Popped { frame, .. } => frame,
        What::Laid { frame } => Some(frame),
        _ => None,
    }
}

impl Takes for Playing {
    fn take(&mut self, entry: &Entry<'_>) -> io::Result<bool> {
        if let Err(halt) = self.player.play(entry) {
            self.halt = Some(halt);
            return Ok(false);
        }
        if self.frames {
            if let Some(frame) = frame_of(entry) {
                let text = hex::encode_upper(self.alloc, frame)?;
                writeln!(self.out, "{text}")?;
            }
        }
        Ok(self.out.len() <= PIECE)
    }
}

impl Tells for Playing {
    fn out(&mut self) -> &mut Vec<u8> {
        &mut self.out
    }

    fn is_done(&self) -> bool {
        self.halt.is_some()
    }
}

/// Prints a text: to standard error where frames go to standard output.
fn tell(rt: &HostRuntime, frames: bool, text: &str) -> io::Result<()> {
    if frames {
        eprintln!(rt; "{text}")
    } else {
        println!(rt; "{text}")
    }
}

/// The exit status of a replay that halted.
fn status_at(halt: &Halt) -> u8 {
    match halt {
        Halt::Memory => FAILED,
        _ => REFUSED,
    }
}

/// What is told of so many steps and frames that were as recorded; before something that is wrong, where not to the end. Where datagrams were
/// not kept whole, how many there were.
fn alike_text(alloc: Global, player: &Player, is_to_the_end: bool) -> Result<String, AllocError> {
    let (steps, frames, unkept) = (player.steps(), player.frames(), player.unkept());
    let before = if is_to_the_end { "" } else { " before it" };
    if unkept > 0 {
        return format!(in alloc;
            "{steps} steps, {frames} frames{before}: as recorded; {unkept} datagrams that are no frames are taken as refused, since they were not kept whole"
        );
    }
    format!(in alloc; "{steps} steps, {frames} frames{before}: as recorded")
}

/// What is told of how far a record is as recorded, and the exit status where all of it was compared.
fn alike_of(alloc: Global, playing: &Playing, verdict: Verdict) -> io::Result<(String, u8)> {
    match &playing.halt {
        Some(halt) => Ok((halt_text(alloc, halt)?, status_at(halt))),
        None => {
            let is_to_the_end = verdict == Verdict::AsRecorded;
            let text = alike_text(alloc, &playing.player, is_to_the_end)?;
            Ok((text, status_of(verdict)))
        }
    }
}

/// What is told of a record that was played, and the exit status.
fn result_of(alloc: Global, playing: &Playing, verdict: Verdict) -> io::Result<(String, u8)> {
    let (alike, status) = alike_of(alloc, playing, verdict)?;
    let mut out = Vec::new(alloc);
    writeln!(out, "{alike}")?;
    let is_whole = tell_unplayed(&playing.player, "", &mut out)?;
    let status = if is_whole {
        status
    } else {
        status.max(REFUSED)
    };
    Ok((text_of(out)?, status))
}

/// Tells what came of a record on the plain program, and answers the exit status.
fn tell_plain(rt: &HostRuntime, asked: &Replayed<'_>, steps: u64) -> io::Result<u8> {
    let (text, status) = played_plainly(rt, asked.files.as_slice(), steps)?;
    tell(rt, asked.frames, text.as_str())?;
    Ok(status)
}

/// Tells what came of a record that was played, and answers the exit status.
fn tell_played(
    rt: &HostRuntime,
    frames: bool,
    playing: &Playing,
    verdict: Verdict,
) -> io::Result<u8> {
    let (text, status) = result_of(rt.alloc(), playing, verdict)?;
    tell(rt, frames, text.as_str())?;
    Ok(status)
}

/// Tells what came of the record of one concentrator, and answers the exit status.
fn tell_replayed(
    rt: &HostRuntime,
    asked: &Replayed<'_>,
    playing: &Playing,
    verdict: Verdict,
) -> io::Result<u8> {
    if playing.halt.is_none() && verdict == Verdict::Failed {
        return Ok(FAILED);
    }
    let status = tell_played(rt, asked.frames, playing, verdict)?;
    if status != DONE || !asked.plain {
        return Ok(status);
    }
    tell_plain(rt, asked, playing.player.steps())
}

/// Plays the files that are asked for, tells what came of it, and answers the exit status.
fn play_files(rt: &HostRuntime, asked: &Replayed<'_>, playing: &mut Playing) -> io::Result<u8> {
    let mut files = Files::of(rt.alloc(), asked.files.as_slice())?;
    walk(rt, &mut files, playing)?;
    tell_replayed(rt, asked, playing, files.verdict())
}

/// Replays the record of one concentrator, and those of the lives behind it.
fn replay(rt: &HostRuntime, asked: &Replayed<'_>) -> io::Result<u8> {
    let alloc = rt.alloc();
    let mut playing = Playing {
        alloc,
        player: Player::new(alloc),
        frames: asked.frames,
        halt: None,
        out: Vec::new(alloc),
    };
    play_files(rt, asked, &mut playing)
}

/// Compares the records of several concentrators, and answers the exit status.
fn replay_several(
    rt: &HostRuntime,
    asked: &Replayed<'_>,
    comparison: &mut Comparison<'_>,
) -> io::Result<u8> {
    if asked.frames || asked.plain {
        eprintln!(rt; "pdc replay: --frames and --plain are for the record of one concentrator")?;
        return Ok(REFUSED);
    }
    compare(rt, comparison)
}

/// Tells why a file is not compared with those before it, and answers the exit status.
fn refuse(rt: &HostRuntime, file: &str, cause: Misfit) -> io::Result<u8> {
    eprintln!(rt; "{file}: {cause}")?;
    Ok(REFUSED)
}

/// Replays what is of one concentrator, compares what is of several, and answers the exit status.
fn replay_grouped(
    rt: &HostRuntime,
    asked: &Replayed<'_>,
    grouped: &mut Grouped<'_>,
) -> io::Result<u8> {
    match grouped {
        Grouped::One => replay(rt, asked),
        Grouped::Several(comparison) => replay_several(rt, asked, comparison),
        Grouped::Misfit(file, cause) => refuse(rt, file, *cause),
    }
}

/// Runs the command, and answers its exit status: the record of one concentrator is replayed, those of several are compared.
///
/// # Errors
///
/// A standard stream cannot be written, or there is no memory.
pub fn run_replay(rt: &HostRuntime, asked: &Replayed<'_>) -> io::Result<u8> {
    let mut grouped = group_files(rt.alloc(), &mut Disk { rt }, asked.files.as_slice());
    let status = match &mut grouped {
        Ok(grouped) => replay_grouped(rt, asked, grouped),
        Err(error) => Err(io::Error::from(*error)),
    };
    // by a call: the compiler would write the drop of its many parts out here, which is dear to prove
    drop(grouped);
    status
}
