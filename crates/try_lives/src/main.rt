//! Plays scripts of calls on the finished libraries, and of worlds of two nodes and a merger, and complains of each line whose answer is not
//! the wanted one.
//!
//! The arguments are pairs: who plays, and the script. `names` reads the frames that scripts call by name, `calls` makes single
//! calls, `life` plays on the plain program of lives of a node and of the merger; `worlds` plays the scenarios of a file. `try_script` tells
//! how a script is written.
#![tactic(auto)]

mod calls_player;
mod compare;
mod life_player;
mod scenario;
mod world;
mod worlds;

use calls_player::CallsPlayer;
use life_player::LifePlayer;
use std::alloc::Global;
use std::io;
use std::process::ExitCode;
use std::rt::Files;
use try_script::{Frames, Played, Stage, play_all, play_script};
use worlds::Tally;

/// The players, the frames that scripts call by name, and what came of the worlds.
#[derive(Drop)]
struct Trials {
    frames: Frames,
    worlds: Option<Tally>,
}

impl Trials {
    /// Keeps what came of the worlds.
    fn keep(&mut self, tally: Tally) -> Played {
        self.worlds = Some(tally);
        Played {
            calls: tally.in_memory.saturating_add(tally.on_disks),
            as_wanted: tally.all_agree,
        }
    }
}

impl Stage for Trials {
    fn play(
        &mut self,
        rt: &(impl Files + AllocGlobal + Eprint),
        alloc: Global,
        player: &str,
        script: &str,
    ) -> io::Result<Played> {
        match player {
            "names" => self.frames.read(rt, alloc, script),
            "calls" => play_script(rt, alloc, script, &mut CallsPlayer),
            "worlds" => Ok(self.keep(worlds::play(rt, alloc, script)?)),
            "life" => {
                let mut life = LifePlayer::new(alloc, &self.frames);
                play_script(rt, alloc, script, &mut life)
            }
            _ => Ok(Played::of(false)),
        }
    }
}

fn main(rt: HostRuntime) -> io::Result<ExitCode> {
    let alloc = rt.alloc();
    let words: Vec<String> = std::env::args(&rt)?.collect(alloc)?;
    let mut trials = Trials {
        frames: Frames::new(alloc),
        worlds: None,
    };
    let words = words.as_slice().get(1..).unwrap_or(&[]);
    let status = play_all(&rt, alloc, words, &mut trials)?;
    if let Some(tally) = trials.worlds {
        worlds::print(&rt, tally)?;
    }
    Ok(status)
}
