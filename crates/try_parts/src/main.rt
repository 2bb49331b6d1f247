//! Plays scripts of settings, sessions, recent frames, clients, simulated PMUs, and what PMUs send, on the finished libraries, and complains
//! of each line whose answer is not the wanted one; and prints what is told of captured frames and of entries of records, one in
//! hexadecimal on each line of a file.
//!
//! The arguments are pairs: who plays, and the script or the name of the file. `names` reads the frames that scripts call by name; `try_script`
//! tells how a script is written. `json` and `csv` export frames in that form, `record` tells what entries say; `shown` and `refused` compare
//! what `pdc show` prints of frames, each of which is shown, or some of which are refused.
#![tactic(auto)]

mod changes;
mod client_player;
mod cuts;
mod entries;
mod exported;
mod line;
mod pmu_player;
mod recent_player;
mod sent_player;
mod session_player;
mod settings_player;
mod shown;
mod told;
mod words;

use client_player::ClientPlayer;
use pdc_export::Format;
use pdc_show::Shown;
use pmu_player::PmuPlayer;
use recent_player::RecentPlayer;
use sent_player::SentPlayer;
use session_player::SessionPlayer;
use settings_player::SettingsPlayer;
use shown::play_shown;
use std::alloc::Global;
use std::io;
use std::process::ExitCode;
use std::rt::Files;
use try_script::{Frames, Played, Player, Stage, play_script};

/// The players, and the frames that scripts call by name.
#[derive(Drop)]
struct Trials {
    frames: Frames,
}

/// Plays a script with a player of its own.
fn play_by<P: Player + Drop>(
    rt: &(impl Files + AllocGlobal + Eprint),
    alloc: Global,
    script: &str,
    mut player: P,
) -> io::Result<Played> {
    play_script(rt, alloc, script, &mut player)
}

impl Stage for Trials {
    fn play(
        &mut self,
        rt: &(impl Files + AllocGlobal + Eprint),
        alloc: Global,
        player: &str,
        script: &str,
    ) -> io::Result<Played> {
        match player {
            "settings" => play_by(rt, alloc, script, SettingsPlayer::new(alloc)),
            "session" => play_by(rt, alloc, script, SessionPlayer::new(alloc)),
            "recent" => play_by(rt, alloc, script, RecentPlayer::new(alloc)?),
            "client" => play_by(rt, alloc, script, ClientPlayer::new(alloc)),
            "pmu" => play_by(rt, alloc, script, PmuPlayer::new()),
            "names" => self.frames.read(rt, alloc, script),
            "sent" => play_by(rt, alloc, script, SentPlayer::new(alloc, &self.frames)?),
            _ => Ok(Played::of(false)),
        }
    }
}

/// Plays a script, and prints how many calls it has; tells whether each answer was the wanted one.
fn play_counted(
    rt: &(impl Files + AllocGlobal + Eprint + Print),
    alloc: Global,
    trials: &mut Trials,
    player: &str,
    script: &str,
) -> io::Result<bool> {
    let played = trials.play(rt, alloc, player, script)?;
    println!(rt; "{player} {script}: {} played", played.calls)?;
    Ok(played.as_wanted)
}

/// Plays the script or the file, and tells whether all was as wanted, as far as it says so.
fn play_pair(
    rt: &(impl Files + AllocGlobal + Eprint + Print),
    alloc: Global,
    trials: &mut Trials,
    player: &str,
    file: &str,
) -> io::Result<bool> {
    match player {
        "json" => exported::play(rt, alloc, file, Format::Json),
        "csv" => exported::play(rt, alloc, file, Format::Csv),
        "record" => entries::play(rt, alloc, file),
        "shown" => play_shown(rt, alloc, player, file, Shown::All),
        "refused" => play_shown(rt, alloc, player, file, Shown::SomeRefused),
        _ => play_counted(rt, alloc, trials, player, file),
    }
}

/// Plays each pair of words.
fn play_pairs(
    rt: &(impl Files + AllocGlobal + Eprint + Print),
    alloc: Global,
    words: &[String],
    trials: &mut Trials,
) -> io::Result<ExitCode> {
    let mut status = ExitCode::SUCCESS;
    for pair in words.chunks(2) {
        if let [player, file] = pair {
            if !play_pair(rt, alloc, trials, player, file)? {
                status = ExitCode::FAILURE;
            }
        }
    }
    Ok(status)
}

fn main(rt: HostRuntime) -> io::Result<ExitCode> {
    let alloc = rt.alloc();
    let words: Vec<String> = std::env::args(&rt)?.collect(alloc)?;
    let mut trials = Trials {
        frames: Frames::new(alloc),
    };
    let words = words.as_slice().get(1..).unwrap_or(&[]);
    play_pairs(&rt, alloc, words, &mut trials)
}
