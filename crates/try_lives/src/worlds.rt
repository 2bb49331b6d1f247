//! Scripts on worlds of two nodes and a merger, of which each is to print its own lines.
//!
//! The file of scenarios has a line for each: its name, and the settings of node A, of node B and of the merger. `NAME.txt` is the script,
//! `NAME.printed` the lines that it is to print and then its exit status. These were reckoned from the definitions of this profile by hand,
//! with check words of another program. Each script is played over marks in memory and over marks on disks in memory.

use crate::compare::agree;
use crate::scenario::Scenario;
use crate::world::{over_disks, over_memory};
use std::alloc::Global;
use std::rt::Files;
use std::{fs, io};

/// How many scripts were played, and whether each printed what it is to print.
#[derive(Clone, Copy, Debug)]
pub struct Tally {
    pub in_memory: u32,
    pub on_disks: u32,
    pub all_agree: bool,
}

/// Plays the scenario over marks of both kinds.
fn try_scenario(
    rt: &(impl Files + AllocGlobal + Eprint),
    alloc: Global,
    scenario: &Scenario<'_>,
    tally: Tally,
) -> io::Result<Tally> {
    let name = scenario.name;
    let script = fs::read(rt, format!(in alloc; "{name}.txt")?)?;
    let wanted = fs::read_to_string(rt, format!(in alloc; "{name}.printed")?)?;
    let mut tally = tally;
    let in_memory = over_memory(alloc, scenario.settings(rt, alloc)?, &script)?;
    tally.in_memory = tally.in_memory.saturating_add(1);
    tally.all_agree &= agree(rt, name, &wanted, &in_memory)?;
    if let Some(on_disks) = over_disks(alloc, scenario.settings(rt, alloc)?, &script)? {
        tally.on_disks = tally.on_disks.saturating_add(1);
        tally.all_agree &= agree(rt, name, &wanted, &on_disks)?;
    }
    Ok(tally)
}

/// Plays the scenarios of this file, and complains of each that prints other lines than it is to print.
pub fn play(
    rt: &(impl Files + AllocGlobal + Eprint),
    alloc: Global,
    file: &str,
) -> io::Result<Tally> {
    let scenarios = fs::read_to_string(rt, file)?;
    let mut tally = Tally {
        in_memory: 0,
        on_disks: 0,
        all_agree: true,
    };
    for line in scenarios.lines() {
        match Scenario::of_line(line) {
            Some(scenario) => tally = try_scenario(rt, alloc, &scenario, tally)?,
            None => {
                eprintln!(rt; "{file}: {line}: not four words")?;
                tally.all_agree = false;
            }
        }
    }
    Ok(tally)
}

/// Prints how many scripts agree.
pub fn print(rt: &impl Print, tally: Tally) -> io::Result<()> {
    println!(rt; "{} scripts agree over marks in memory", tally.in_memory)?;
    println!(rt; "{} scripts agree over marks on disks", tally.on_disks)
}
