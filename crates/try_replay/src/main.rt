//! Records worked lives, replays, compares and explains them, and complains of each line whose answer is not the wanted one.
//!
//! The arguments are pairs: who plays, and the script. `names` reads the frames that scripts call by name; `node` plays on a node and `merger` on
//! a merger, and each life is recorded entry by entry. Where the next life begins, the record of the one before is replayed.
//! `recorder.rt` tells the calls, `try_script` how a script is written.
#![tactic(auto)]

mod comparing;
mod lives;
mod recorder;
mod replaying;
mod tellers;

use lives::Lives;
use pdc_merge::Merger;
use pdc_node::Node;
use pdc_table::RingTable;
use recorder::Recorder;
use std::alloc::Global;
use std::io;
use std::process::ExitCode;
use std::rt::Files;
use try_script::{Frames, Played, Stage, play_all, play_script};

/// What a node is told before a script begins,
const NODE: [&str; 4] = ["node", "64", "2", "2"];

/// and the merger.
const MERGER: [&str; 3] = ["merger", "64", "2"];

/// The players, and the frames that scripts call by name.
#[derive(Drop)]
struct Trials {
    frames: Frames,
}

impl Trials {
    /// Plays a script on a core of this kind.
    fn play_on<C: Lives>(
        &self,
        rt: &(impl Files + AllocGlobal + Eprint),
        alloc: Global,
        script: &str,
        told: &[&str],
    ) -> io::Result<Played> {
        match Recorder::<C>::new(alloc, &self.frames, C::id(), told)? {
            Some(mut recorder) => play_script(rt, alloc, script, &mut recorder),
            None => Ok(Played::of(false)),
        }
    }
}

impl Stage for Trials {
    fn play(
        &mut self,
        rt: &(impl Files + AllocGlobal + Eprint),
        alloc: Global,
        player: &str,
        script: &str,
    ) -> io::Result<Played> {
        match player {
            "names" => self.frames.read(rt, alloc, script),
            "node" => self.play_on::<Node<RingTable>>(rt, alloc, script, &NODE),
            "merger" => self.play_on::<Merger<RingTable>>(rt, alloc, script, &MERGER),
            _ => Ok(Played::of(false)),
        }
    }
}

fn main(rt: HostRuntime) -> io::Result<ExitCode> {
    let alloc = rt.alloc();
    let words: Vec<String> = std::env::args(&rt)?.collect(alloc)?;
    let mut trials = Trials {
        frames: Frames::new(alloc),
    };
    play_all(
        &rt,
        alloc,
        words.as_slice().get(1..).unwrap_or(&[]),
        &mut trials,
    )
}
