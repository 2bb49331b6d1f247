//! Runs a node with sixteen receivers side by side, over sources in memory, and prints what was counted. With a word COUNT it does so over so
//! many instants, and prints how long that took beside the same core on one thread.
#![tactic(auto)]

mod alone;
mod feed;
mod frames;
mod recorded;
mod side_by_side;

use alone::run_alone;
use frames::Frames;
use pdc_settings::NodeSettings;
use recorded::run_recorded;
use side_by_side::run_side_by_side;
use std::io;
use std::process::ExitCode;
use std::time::{Duration, Instant};
use try_script::SettingsText;

/// The PMUs of the node.
const PMUS: [u16; 16] = [
    11, 12, 13, 14, 15, 16, 17, 18, 19, 20, 21, 22, 23, 24, 25, 26,
];

/// What the node is told: an instant waits for all of its data.
const WAITS_FOR_ALL: SettingsText<'_> = SettingsText {
    id: 201,
    wait: 1000,
    wait_kind: "absolute",
    window: 256,
    ahead: 1000,
    layout_every: 1000,
    out_port: 4712,
};

/// How many instants there are where no word says it.
const INSTANTS: u32 = 40;

/// The number that the first word says.
fn count_of(words: &[String]) -> Option<u32> {
    words.get(1)?.parse::<u32>().ok()
}

/// Prints a time, and how many datagrams of so many that is a second.
fn print_time(rt: &impl Print, name: &str, taken: Duration, datagrams: u64) -> io::Result<()> {
    let nanoseconds = taken.as_nanos().max(1);
    let each = nanoseconds / u128::from(datagrams.max(1));
    let rate = u128::from(datagrams) * 1_000_000 / nanoseconds;
    println!(rt; "{name}: {each} ns a datagram, {rate} thousand a second")
}

fn main(rt: HostRuntime) -> io::Result<ExitCode> {
    let alloc = rt.alloc();
    let words: Vec<String> = std::env::args(&rt)?.collect(alloc)?;
    let asked = count_of(&words);
    let count = asked.unwrap_or(INSTANTS);
    let text = WAITS_FOR_ALL.node(alloc, &PMUS, 4811)?;
    let (Ok(settings), Some(frames)) = (
        NodeSettings::from_toml(alloc, &text),
        Frames::new(alloc, count),
    ) else {
        println!(rt; "no settings or no frames")?;
        return Ok(ExitCode::FAILURE);
    };
    let begun = Instant::now(&rt)?;
    let Some(totals) = run_side_by_side(&rt, alloc, &settings.life, &frames) else {
        println!(rt; "the run ended early")?;
        return Ok(ExitCode::FAILURE);
    };
    let together = begun.elapsed(&rt)?;
    let (taken, refused, published) = (totals.taken, totals.refused, totals.published);
    println!(rt; "taken={taken} refused={refused} published={published}")?;
    let begun = Instant::now(&rt)?;
    let published = run_alone(alloc, &settings.life, &frames);
    let alone = begun.elapsed(&rt)?;
    println!(rt; "published on one thread: {published}")?;
    if asked.is_some() {
        print_time(&rt, "side by side", together, taken)?;
        print_time(&rt, "on one thread", alone, taken)?;
        if let Some((reading, recording)) = run_recorded(&rt, alloc, &settings.life, &frames) {
            print_time(&rt, "read", reading, taken)?;
            print_time(&rt, "read, taken and recorded", recording, taken)?;
        }
    }
    Ok(ExitCode::SUCCESS)
}
