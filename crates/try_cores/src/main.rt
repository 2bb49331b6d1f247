//! Plays scripts of calls on alignment tables, and of lives on nodes and on the merger, each with a publisher, and complains of each line
//! whose answer is not the wanted one.
//!
//! The arguments are pairs: who plays, and the script. `table` and `ring` play on a table that is kept as sorted rows or as a ring, `twins`
//! on both at once. `names` reads the frames that scripts call by name; `node_ring` and `node_sorted` play on a node over either table,
//! `node_steps` on one that is handed arrivals, ticks and pops as steps; `merger_ring` and `merger_sorted` on a merger. `try_script` tells
//! how a script is written.
#![tactic(auto)]

mod blocks;
mod core_player;
mod scripted;
mod steps;
mod table_player;
mod twins;
mod widest;

use core_player::CorePlayer;
use pdc_merge::Merger;
use pdc_node::Node;
use pdc_table::{RingTable, Table};
use scripted::Scripted;
use std::alloc::Global;
use std::io;
use std::process::ExitCode;
use std::rt::Files;
use table_player::TablePlayer;
use try_script::{Frames, Played, SortedTable, Stage, play_all, play_script};
use twins::Twins;

/// What a node is told before a script begins,
const NODE: [&str; 4] = ["node", "64", "2", "2"];

/// and the merger.
const MERGER: [&str; 3] = ["merger", "64", "2"];

/// The players, and the frames that scripts call by name.
#[derive(Drop)]
struct Trials {
    frames: Frames,
}

impl Trials {
    /// Plays a script on a core of this kind.
    fn play_on<C: Scripted>(
        &self,
        rt: &(impl Files + AllocGlobal + Eprint),
        alloc: Global,
        script: &str,
        told: &[&str],
        by_steps: bool,
    ) -> io::Result<Played> {
        match CorePlayer::<C>::new(alloc, &self.frames, told, by_steps)? {
            Some(mut player) => play_script(rt, alloc, script, &mut player),
            None => Ok(Played::of(false)),
        }
    }
}

/// Plays a script on a table of this kind.
fn play_on_table<T: Table>(
    rt: &(impl Files + AllocGlobal + Eprint),
    alloc: Global,
    script: &str,
) -> io::Result<Played> {
    let mut table = TablePlayer::<T>::new(alloc)?;
    play_script(rt, alloc, script, &mut table)
}

/// Plays a script on both tables.
fn play_on_twins(
    rt: &(impl Files + AllocGlobal + Eprint),
    alloc: Global,
    script: &str,
) -> io::Result<Played> {
    let mut twins = Twins::new(alloc)?;
    play_script(rt, alloc, script, &mut twins)
}

impl Stage for Trials {
    fn play(
        &mut self,
        rt: &(impl Files + AllocGlobal + Eprint),
        alloc: Global,
        player: &str,
        script: &str,
    ) -> io::Result<Played> {
        match player {
            "table" => play_on_table::<SortedTable>(rt, alloc, script),
            "ring" => play_on_table::<RingTable>(rt, alloc, script),
            "twins" => play_on_twins(rt, alloc, script),
            "names" => self.frames.read(rt, alloc, script),
            "node_ring" => self.play_on::<Node<RingTable>>(rt, alloc, script, &NODE, false),
            "node_sorted" => self.play_on::<Node<SortedTable>>(rt, alloc, script, &NODE, false),
            "node_steps" => self.play_on::<Node<RingTable>>(rt, alloc, script, &NODE, true),
            "merger_ring" => self.play_on::<Merger<RingTable>>(rt, alloc, script, &MERGER, false),
            "merger_sorted" => self.play_on::<Merger<SortedTable>>(
                rt, alloc, script, &MERGER, false,
            ),
            _ => Ok(Played::of(false)),
        }
    }
}

fn main(rt: HostRuntime) -> io::Result<ExitCode> {
    let alloc = rt.alloc();
    let words: Vec<String> = std::env::args(&rt)?.collect(alloc)?;
    let mut trials = Trials {
        frames: Frames::new(alloc),
    };
    play_all(
        &rt,
        alloc,
        words.as_slice().get(1..).unwrap_or(&[]),
        &mut trials,
    )
}
