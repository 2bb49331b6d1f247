//! `pdc explain`.

use crate::printing::{Disk, PIECE, Tells, print, status_of, walk};
use crate::words::{Explained, Question};
use crate::{DONE, FAILED, REFUSED};
use pdc_compare::{Files, Owner, Takes, Verdict, files_of_each};
use pdc_explain::{
    Delays, Follower, Gap, Selection, Story, Tally, Unexplained, print_gap, tell_delays, tell_story,
};
use pdc_record::{Entry, Role};
use std::alloc::Global;
use std::io;
use std::io::Write;

/// What tells of instants.
#[derive(Drop)]
struct Instants {
    follower: Follower,
    tally: Tally,
    /// All instants with an absent block are asked for, not one.
    all: bool,
    /// The story that is asked for was told.
    told: bool,
    /// What is to be printed.
    out: Vec<u8>,
    fault: Option<Unexplained>,
}

impl Instants {
    fn new(alloc: Global, wanted: Selection) -> Instants {
        Instants {
            follower: Follower::new(alloc, wanted),
            tally: Tally::new(alloc),
            all: wanted == Selection::All,
            told: false,
            out: Vec::new(alloc),
            fault: None,
        }
    }

    /// Tells of an instant that is followed no more.
    fn tell(&mut self, story: &Story) -> io::Result<()> {
        if self.all {
            return self.tally.add(&mut self.out, &self.follower, story);
        }
        let Some(about) = self.follower.about() else {
            return Ok(());
        };
        if self.follower.is_wanted(story.instant) {
            self.told = true;
            return tell_story(&mut self.out, about, story, self.follower.end_time());
        }
        Ok(())
    }

    /// Tells of the instants that are followed no more.
    fn tell_finished(&mut self) -> io::Result<()> {
        if let Some(stories) = self.follower.finished() {
            for story in &stories {
                self.tell(story)?;
            }
        }
        Ok(())
    }

    /// The life is at its end.
    fn end(&mut self) -> io::Result<()> {
        self.follower.end()?;
        self.tell_finished()?;
        self.tally.end(&mut self.out, &self.follower)
    }

    /// Tells what is told at the end of the record, which is in these files.
    fn tell_end(&mut self, names: &[&str]) -> io::Result<()> {
        self.end()?;
        if self.all {
            self.tally.tell(&mut self.out)?;
        } else if !self.told {
            writeln!(self.out, "nothing is recorded of this instant")?;
        }
        for gap in self.follower.gaps() {
            tell_gap(&mut self.out, gap, names)?;
        }
        Ok(())
    }
}

/// The name of the file at this place; nothing where there is none.
fn name_at<'a>(names: &[&'a str], place: usize) -> &'a str {
    match names.get(place) {
        Some(name) => *name,
        None => "",
    }
}

/// Tells which steps are not in the record, and between which of these files; or that a file has steps that were there already.
fn tell_gap(out: &mut Vec<u8>, gap: &Gap, names: &[&str]) -> io::Result<()> {
    let file = gap.file.unwrap_or(0);
    let name = name_at(names, file);
    if gap.until < gap.from {
        let (until, from) = (gap.until, gap.from);
        return writeln!(
            out,
            "{name} begins with step {until}, where step {from} is wanted"
        );
    }
    print_gap(out, gap)?;
    match gap.file {
        None => writeln!(out, ", are not in the record"),
        Some(0) => writeln!(out, ", are not in the record: they are before {name}"),
        Some(_) => {
            let before = name_at(names, file.saturating_sub(1));
            writeln!(
                out,
                ", are not in the record: they are between {before} and {name}"
            )
        }
    }
}

impl Takes for Instants {
    fn open(&mut self, file: usize) {
        self.follower.file = file;
    }

    fn take(&mut self, entry: &Entry<'_>) -> io::Result<bool> {
        if self.follower.is_other_life(entry) {
            self.end()?;
        }
        if let Err(fault) = self.follower.take(entry) {
            self.fault = Some(fault);
            return Ok(false);
        }
        self.tell_finished()?;
        Ok(self.out.len() <= PIECE)
    }
}

impl Tells for Instants {
    fn out(&mut self) -> &mut Vec<u8> {
        &mut self.out
    }

    fn is_done(&self) -> bool {
        self.fault.is_some()
    }
}

/// What tells of delays.
#[derive(Drop)]
struct Lateness {
    delays: Delays,
    /// What is to be printed.
    out: Vec<u8>,
    fault: Option<Unexplained>,
}

impl Takes for Lateness {
    fn take(&mut self, entry: &Entry<'_>) -> io::Result<bool> {
        if let Err(fault) = self.delays.take(entry) {
            self.fault = Some(fault);
            return Ok(false);
        }
        Ok(true)
    }
}

impl Tells for Lateness {
    fn out(&mut self) -> &mut Vec<u8> {
        &mut self.out
    }

    fn is_done(&self) -> bool {
        self.fault.is_some()
    }
}

/// The exit status of files that were read so; a fault is told.
fn ended(rt: &HostRuntime, verdict: Verdict, fault: Option<Unexplained>) -> io::Result<u8> {
    let Some(fault) = fault else {
        return Ok(status_of(verdict));
    };
    eprintln!(rt; "pdc explain: {fault}")?;
    Ok(if fault == Unexplained::Memory {
        FAILED
    } else {
        REFUSED
    })
}

/// Prints what is told of instants.
fn print_instants(
    rt: &HostRuntime,
    files: &mut Files<'_>,
    instants: &mut Instants,
) -> io::Result<()> {
    walk(rt, files, instants)?;
    if files.verdict() != Verdict::Failed && instants.fault.is_none() {
        instants.tell_end(files.names())?;
    }
    print(rt, &mut instants.out)
}

/// Tells of instants.
fn explain_instants(rt: &HostRuntime, files: &mut Files<'_>, wanted: Selection) -> io::Result<u8> {
    let mut instants = Instants::new(rt.alloc(), wanted);
    print_instants(rt, files, &mut instants)?;
    ended(rt, files.verdict(), instants.fault)
}

/// Prints what is told of delays.
fn print_delays(
    rt: &HostRuntime,
    files: &mut Files<'_>,
    lateness: &mut Lateness,
) -> io::Result<()> {
    walk(rt, files, lateness)?;
    if lateness.fault.is_none() {
        tell_delays(&mut lateness.out, &lateness.delays)?;
    }
    print(rt, &mut lateness.out)
}

/// Tells of delays.
fn explain_delays(rt: &HostRuntime, files: &mut Files<'_>) -> io::Result<u8> {
    let alloc = rt.alloc();
    let mut lateness = Lateness {
        delays: Delays::new(alloc)?,
        out: Vec::new(alloc),
        fault: None,
    };
    print_delays(rt, files, &mut lateness)?;
    ended(rt, files.verdict(), lateness.fault)
}

/// Tells whose record is explained next.
fn tell_owner(rt: &HostRuntime, owner: Owner) -> io::Result<()> {
    let role = if owner.role == Role::Merger {
        "merger"
    } else {
        "node"
    };
    println!(rt; "{role} {}", owner.id)
}

/// Explains the files of one owner, and answers the exit status.
fn explain_files(rt: &HostRuntime, names: &[&str], question: Question) -> io::Result<u8> {
    let mut files = Files::of(rt.alloc(), names)?;
    match question {
        Question::Instants(wanted) => explain_instants(rt, &mut files, wanted),
        Question::Delays => explain_delays(rt, &mut files),
    }
}

/// Runs the command, and answers its exit status: the greatest one of the owners of the files, each of which is explained for itself.
///
/// # Errors
///
/// A standard stream cannot be written, or there is no memory.
pub fn run_explain(rt: &HostRuntime, asked: &Explained<'_>) -> io::Result<u8> {
    let owned = files_of_each(rt.alloc(), &mut Disk { rt }, asked.files.as_slice())?;
    let mut status = DONE;
    for each in &owned {
        if let (Some(owner), true) = (each.owner, owned.len() > 1) {
            tell_owner(rt, owner)?;
        }
        status = status.max(explain_files(rt, each.names.as_slice(), asked.question)?);
    }
    Ok(status)
}
