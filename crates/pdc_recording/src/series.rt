//! The files of a record.
ghost use Rattle.std.specs.Prelude.{◌≡◌, ◌<◌, ◌++◌, IfOk, OnOk};
ghost use Rattle.pdc_record.specs.Entries.{spelling_of};
ghost use Rattle.pdc_record.specs.Told.{fields_of};

use crate::carried::Carried;
use crate::carrying::begins_next;
use crate::files::{FileNumber, old_of, remove_file};
use crate::gathered::{Gathered, count_of};
use crate::shelf::Shelf;
use pdc_record::{Begun, Entry, What, write_entry};
use std::alloc::{AllocError, Global};
use std::fs::File;
use std::io;
use std::io::{ErrorKind, Write};

/// How large the files of a record grow, and how many of them stay.
#[derive(Clone, Copy, Debug, PartialEq, Eq)]
pub struct Limits {
    /// After how many bytes the next file begins.
    pub size: u64,
    /// How many files of a life stay; where there is none, all do.
    pub keep: Option<u32>,
    /// Of how many lives the files stay, that which begins with them; where there is none, those of all.
    pub lives: Option<u32>,
}

/// The files of the record of a life, `NAME.START.000001` and those that follow it, with the number of the life's start. Each begins with
/// what the life began with, a later one with the steps that it carries over.
#[derive(Drop)]
pub struct Series<'a> {
    alloc: Global,
    name: &'a str,
    limits: Limits,
    begun: Begun<'a>,
    /// The number of the file that is written, from 1.
    number: u32,
    file: Gathered<File>,
    /// How many bytes it has, with those that are gathered.
    len: u64,
    /// The first step that is not in a file, nor among those that a file says are lacking.
    next: u64,
}

/// The name of the file with this number.
pub fn name_of(alloc: Global, name: &str, start: u32, number: u32) -> Result<String, AllocError> {
    format!(in alloc; "{name}.{start:06}.{number:06}")
}

/// The error of an allocation.
fn no_memory() -> io::Error {
    io::Error::from(ErrorKind::OutOfMemory)
}

/// A new file of this number; one that is there already is an error.
fn open_numbered<R: Shelf>(
    rt: &R,
    alloc: Global,
    name: &str,
    start: u32,
    number: u32,
) -> io::Result<File> {
    let path = name_of(alloc, name, start, number).map_err(|_| no_memory())?;
    rt.make(path.as_str())
}

/// Appends an entry.
fn append_entry(entry: &Entry<'_>, out: &mut Vec<u8>) -> io::Result<()>
    ensures { OnOk result (out.new.items ≡ out.old.items ++ spelling_of (fields_of entry.now)) }
{
    match write_entry(entry, out) {
        Ok(()) => Ok(()),
        Err(_) => Err(no_memory()),
    }
}

/// The entry with which a file begins whose first step has this number.
fn head_of<'a>(begun: &Begun<'a>, step: u64, time: u64) -> Entry<'a> {
    Entry {
        step,
        time,
        what: What::Begun(*begun),
    }
}

/// Makes the first file, with these bytes.
fn make_first<R: Shelf>(
    rt: &R,
    alloc: Global,
    name: &str,
    start: u32,
    head: &[u8],
) -> io::Result<File> {
    let mut file = open_numbered(rt, alloc, name, start, 1)?;
    match file.write_all(head) {
        Ok(()) => Ok(file),
        Err(error) => {
            let gone = FileNumber { start, number: 1 };
            let _removed = remove_file(rt, alloc, name, gone, None);
            Err(error)
        }
    }
}

impl<'a> Series<'a> {
    /// The first file, which is new, with what the life began with, at this time.
    ///
    /// # Errors
    ///
    /// The file is there already, or cannot be made or written, or there is no memory. Then there is no new file.
    pub fn open<R: Shelf>(
        rt: &R,
        alloc: Global,
        name: &'a str,
        limits: Limits,
        begun: Begun<'a>,
        time: u64,
    ) -> io::Result<Series<'a>> {
        let mut head = Vec::new(alloc);
        append_entry(&head_of(&begun, 0, time), &mut head)?;
        let file = make_first(rt, alloc, name, begun.start, head.as_slice())?;
        let written = count_of(head.as_slice());
        head.clear();
        Ok(Series {
            alloc,
            name,
            limits,
            begun,
            number: 1,
            file: Gathered::new(file, written, head),
            len: written,
            next: 0,
        })
    }

    /// The name of the file that is written.
    pub fn path(&self) -> Result<String, AllocError> {
        name_of(self.alloc, self.name, self.begun.start, self.number)
    }

    /// The number of the file that is written.
    pub fn number(&self) -> u32 {
        self.number
    }

    /// What the names of the files begin with.
    pub fn name(&self) -> &'a str {
        self.name
    }

    /// What the life began with.
    pub fn begun(&self) -> &Begun<'a> {
        &self.begun
    }

    /// How large the files grow, and how many stay.
    pub fn limits(&self) -> Limits {
        self.limits
    }

    /// Writes what is gathered: all below the step with this number. Answers how many bytes that were.
    ///
    /// # Errors
    ///
    /// The file cannot be written.
    pub fn flush(&mut self, next: u64) -> io::Result<u64> {
        let more = self.file.flush()?;
        self.next = next;
        Ok(more)
    }

    /// The file that is written.
    fn file_number(&self) -> FileNumber
        ensures start { result.start ≡ self.now.begun.start }
        ensures number { result.number ≡ self.now.number }
    {
        FileNumber {
            start: self.begun.start,
            number: self.number,
        }
    }

    /// The number of the file behind the one that is written.
    fn next_number(&self) -> io::Result<u32>
        ensures { IfOk result (λ number. self.now.number < number) }
    {
        match self.number.checked_add(1) {
            Some(number) => Ok(number),
            None => Err(io::Error::from(ErrorKind::AlreadyExists)),
        }
    }

    /// Removes the file that is not to stay beside the one that is written.
    fn remove_old<R: Shelf>(&self, rt: &R) {
        let written = self.file_number();
        if let Some(number) = old_of(self.limits.keep, written.number) {
            let gone = FileNumber { number, ..written };
            let _removed = remove_file(rt, self.alloc, self.name, gone, Some(written));
        }
    }

    /// What a file begins with whose first step has this number: what the life began with, and what is carried over.
    fn front_of(&self, step: u64, time: u64, carried: &Carried) -> io::Result<Vec<u8>> {
        let begun = Begun {
            floor: carried.floor().unwrap_or(self.begun.floor),
            ..self.begun
        };
        let mut front = Vec::new(self.alloc);
        append_entry(&head_of(&begun, step, time), &mut front)?;
        carried.append_to(&mut front).map_err(|_| no_memory())?;
        Ok(front)
    }

    /// What a file begins with that says which steps are lacking before it.
    fn front_behind(&self, until: u64, time: u64) -> io::Result<Vec<u8>> {
        let step = self.next;
        let mut front = Vec::new(self.alloc);
        append_entry(&head_of(&self.begun, step, time), &mut front)?;
        let what = What::Missing { until };
        append_entry(&Entry { step, time, what }, &mut front)?;
        Ok(front)
    }

    /// Begins the next file, and removes the one that is not to stay.
    fn begin_next<R: Shelf>(
        &mut self,
        rt: &R,
        step: u64,
        time: u64,
        carried: &Carried,
    ) -> io::Result<u64> {
        let more = self.flush(step)?;
        let number = self.next_number()?;
        let file = open_numbered(rt, self.alloc, self.name, self.begun.start, number)?;
        self.file = Gathered::new(file, 0, Vec::new(self.alloc));
        self.number = number;
        let front = self.front_of(step, time, carried)?;
        self.len = count_of(front.as_slice());
        self.file.begin_with(front);
        self.remove_old(rt);
        Ok(more)
    }

    /// Appends the bytes of an entry to the file that is written, behind all below the step with this number. Answers how many bytes were
    /// written meanwhile.
    ///
    /// # Errors
    ///
    /// The file cannot be written, or there is no memory.
    pub fn append(&mut self, bytes: &[u8], step: u64) -> io::Result<u64> {
        let written = if self.file.is_full() {
            self.flush(step)?
        } else {
            0
        };
        if self.file.add(bytes).is_err() {
            return Err(no_memory());
        }
        self.len = self.len.saturating_add(count_of(bytes));
        Ok(written)
    }

    /// The same, but where the file is full the entry is the first of the next one, behind the steps that are carried over.
    ///
    /// # Errors
    ///
    /// A file cannot be made or written, or there is no memory.
    pub fn append_in_order<R: Shelf>(
        &mut self,
        rt: &R,
        bytes: &[u8],
        step: u64,
        time: u64,
        carried: &Carried,
    ) -> io::Result<u64> {
        let len = self.len.saturating_add(count_of(bytes));
        let mut written = 0u64;
        if begins_next(len, self.limits.size, carried.is_quiet()) {
            written = self.begin_next(rt, step, time, carried)?;
        }
        let more = self.append(bytes, step)?;
        Ok(written.saturating_add(more))
    }

    /// Gives up the file that is written: what was not written whole is taken away from it, and a file of which nothing was is removed.
    /// Answers the first step that the record lacks.
    pub fn give_up<R: Shelf>(&mut self, rt: &R) -> u64 {
        self.file.forget();
        if self.file.is_empty() {
            let gone = self.file_number();
            let _removed = remove_file(rt, self.alloc, self.name, gone, None);
            self.number = self.number.saturating_sub(1);
        } else {
            self.file.cut();
        }
        self.next
    }

    /// Goes on in the next file. Where the steps up to the one before `until` are lacking, it begins with that one and carries over what a core
    /// must know, or else it says that they are. Answers how many bytes were written.
    ///
    /// # Errors
    ///
    /// The file cannot be made or written, or there is no memory. Then there is no new file.
    pub fn resume<R: Shelf>(
        &mut self,
        rt: &R,
        until: Option<u64>,
        time: u64,
        carried: &Carried,
    ) -> io::Result<u64> {
        let (alloc, next) = (self.alloc, until.unwrap_or(self.next));
        let front = match (until, carried.floor()) {
            (Some(until), None) => self.front_behind(until, time)?,
            _ => self.front_of(next, time, carried)?,
        };
        let number = self.next_number()?;
        let mut file = open_numbered(rt, alloc, self.name, self.begun.start, number)?;
        if let Err(error) = file.write_all(front.as_slice()) {
            let before = self.file_number();
            let gone = FileNumber { number, ..before };
            let _removed = remove_file(rt, alloc, self.name, gone, Some(before));
            return Err(error);
        }
        let more = count_of(front.as_slice());
        self.file = Gathered::new(file, more, Vec::new(alloc));
        self.number = number;
        self.len = more;
        self.next = next;
        self.remove_old(rt);
        Ok(more)
    }
}
