//! The runs that end well or by a fault, and what is printed of each.
ghost use Rattle.std.specs.Prelude.{◌≡◌, IfSome};
ghost use Rattle.pdc_mark.specs.DiskMark.{stored_of};

use crate::node_a::{
    CONFIG_12, MEETS_11, MEETS_12, PLAIN_11, PLAIN_12, TWICE_11, TWICE_12, settings_of,
};
use crate::scene::{Played, Scene, run_scene};
use crate::scripted::{Act, Shown};
use pdc_disk::{FuseDisk, MemoryDisk};
use pdc_life::Settings;
use pdc_mark::{DiskMark, Mark, ModelMark};
use std::alloc::Global;
use std::io;
use std::sync::Wait;
use std::thread::Threads;

/// A source that fails at its second call.
const FAILS: &[Act] = &[Act::Give(CONFIG_12), Act::Fail];

/// The run that ends well, under this name.
fn plain<'a>(name: &'a str, shown: &'a Shown) -> Scene<'a> {
    Scene {
        name,
        limit: 1024,
        layout_every: 100,
        first: PLAIN_11,
        second: PLAIN_12,
        taken: 2,
        shown,
        sink_fails_at: u32::MAX,
    }
}

/// The calls of a disk that are passed on: 3 make the file, 4 store the start, since one gate is closed still, and 6 each store the counts
/// and the first row's instant. The next call is the first one for the second row.
const CALLS: u64 = 19;

/// A mark whose device fails after these calls.
fn fused_mark() -> Option<DiskMark<FuseDisk<MemoryDisk>>>
    ensures { IfSome result (λ mark. (stored_of mark).floor ≡ 0) }
{
    let disk = FuseDisk::new(MemoryDisk::new(&[]), CALLS);
    let Ok(mut mark) = DiskMark::init(disk, 201, 50) else {
        return None;
    };
    if mark.begin().is_err() {
        return None;
    }
    Some(mark)
}

/// Prints how a run ended, and each frame that the sink took: a layout by its length, data whole.
fn print_played<M: Mark, R: Print>(rt: &R, alloc: Global, played: &Played<M>) -> io::Result<()> {
    match &played.ran.outcome {
        Ok(totals) => {
            let (taken, refused, published) = (totals.taken, totals.refused, totals.published);
            println!(rt; "  taken={taken} refused={refused} published={published}")?;
            for counted in &totals.receivers {
                let (taken, refused) = (counted.taken, counted.refused);
                println!(rt; "  receiver: taken={taken} refused={refused}")?;
            }
        }
        Err(fault) => println!(rt; "  {fault}")?,
    }
    let taken = played.taken;
    println!(rt; "  core: taken={taken}")?;
    let (published, last) = (played.published, played.last);
    println!(rt; "  told: published={published} last={last}")?;
    for frame in &played.ran.sink.inner.frames {
        let len = frame.len();
        if len > 100 {
            println!(rt; "  frame of {len} bytes")?;
        } else {
            let text = hex::encode(alloc, frame)?;
            println!(rt; "  {text}")?;
        }
    }
    Ok(())
}

/// Runs node A over a mark that stores no instant, and prints what came of it.
fn play_one<M: Mark + Drop, R: Threads + Wait + Sync + Print>(
    rt: &R,
    alloc: Global,
    settings: &Settings,
    mark: M,
    scene: &Scene<'_>,
) -> io::Result<()> {
    let name = scene.name;
    let (_, floor) = mark.stored();
    if scene.limit == 0 || scene.layout_every == 0 || settings.pmus.len() != 2 || floor != 0 {
        return println!(rt; "{name}: no such run");
    }
    match run_scene(rt, alloc, settings, mark, scene)? {
        Some(played) => print_played(rt, alloc, &played),
        None => println!(rt; "{name}: out of memory"),
    }
}

/// The same with the settings of node A.
fn play_over<M: Mark + Drop, R: Threads + Wait + Sync + Print>(
    rt: &R,
    alloc: Global,
    mark: M,
    scene: &Scene<'_>,
) -> io::Result<()> {
    match settings_of(alloc) {
        Some(settings) => play_one(rt, alloc, &settings.life, mark, scene),
        None => Err(io::Error::other("the settings are refused")),
    }
}

/// Runs all of them.
pub fn play<R: Threads + Wait + Sync + Print>(rt: &R, alloc: Global) -> io::Result<()> {
    let (all_shown, fused_shown) = (Shown::new(), Shown::new());
    let shown = &all_shown;
    let scenes = [
        plain("both present", shown),
        Scene {
            limit: 1,
            ..plain("both present, each step brings the base up", shown)
        },
        Scene {
            layout_every: 2,
            ..plain("both present, the layout again at each second tick", shown)
        },
        Scene {
            second: FAILS,
            taken: 1,
            ..plain("a source fails at its second call", shown)
        },
        Scene {
            sink_fails_at: 2,
            ..plain("the sink fails at its second frame", shown)
        },
        Scene {
            first: MEETS_11,
            second: MEETS_12,
            ..plain("two sources, each waits for the other", shown)
        },
    ];
    for scene in &scenes {
        play_over(rt, alloc, ModelMark::new(1, 0), scene)?;
    }
    let Some(mark) = fused_mark() else {
        return Err(io::Error::other("the mark is refused"));
    };
    let scene = Scene {
        first: TWICE_11,
        second: TWICE_12,
        taken: 4,
        ..plain("the mark's device fails at the second row", &fused_shown)
    };
    play_over(rt, alloc, mark, &scene)
}
