//! How many stores a second a mark on a real file makes: a program for `bench/marks`.
//!
//! `bench_marks FILE COUNT` makes the mark file FILE, raises its floor COUNT times, takes the file away and prints
//! the nanoseconds that the stores took.
#![tactic(auto)]

ghost use Rattle.std.specs.Prelude.{◌≡◌, OnErr, OnOk, IsErrOf};
ghost use Rattle.pdc_mark.specs.DiskMark.{stored_of};
ghost use Rattle.pdc_mark.specs.Stored.{with_floor};

use pdc_disk::FileDisk;
use pdc_mark::{DiskMark, Mark, MarkFault};
use std::fs::File;
use std::process::ExitCode;
use std::rt::{Clock, Files};
use std::time::Instant;
use std::{fs, io};

/// Raises the floor of a mark that stores 0 to 1, 2, .. up to `count`.
fn raise(mark: &mut DiskMark<FileDisk>, count: u32) -> Result<(), MarkFault>
    requires { (stored_of mark.old).floor ≡ 0 }
    ensures done { OnOk result (stored_of mark.new ≡ with_floor (stored_of mark.old) count) }
    ensures fault { OnErr result (IsErrOf result MarkFault.Device) }
{
    for floor in 0..u64::from(count) {
        mark.reserve(floor + 1)?;
    }
    Ok(())
}

/// The nanoseconds that `count` stores into a new mark file took.
fn stores<R: Files<File = File> + Clock>(rt: &R, file: &str, count: u32) -> io::Result<u128> {
    let disk = FileDisk::create(rt, file)?;
    let Ok(mut mark) = DiskMark::init(disk, 201, 50) else {
        return Err(io::Error::other("the mark cannot be made"));
    };
    let start = Instant::now(rt)?;
    let raised = raise(&mut mark, count);
    let taken = start.elapsed(rt)?.as_nanos();
    fs::remove_file(rt, file)?;
    match raised {
        Ok(()) => Ok(taken),
        Err(_) => Err(io::Error::other("a store failed")),
    }
}

fn main(rt: HostRuntime) -> io::Result<ExitCode> {
    let words: Vec<String> = std::env::args(&rt)?.collect(rt.alloc())?;
    let asked = match words.as_slice() {
        [_, file, count] => count
            .as_str()
            .parse::<u32>()
            .ok()
            .map(|count| (file, count)),
        _ => None,
    };
    let Some((file, count)) = asked else {
        println!(rt; "usage: bench_marks FILE COUNT")?;
        return Ok(ExitCode::from(2));
    };
    let nanoseconds = stores(&rt, file.as_str(), count)?;
    println!(rt; "{nanoseconds}")?;
    Ok(ExitCode::SUCCESS)
}
