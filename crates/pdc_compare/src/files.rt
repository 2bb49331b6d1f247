//! The files of a record, one in memory at a time.

use crate::entries::{Entries, Unread};
use crate::verdict::Verdict;
use pdc_record::Entry;
use std::alloc::{AllocError, Global};
use std::io;
use thiserror::Error;

/// What opens files.
pub trait Opens {
    /// All bytes of a file.
    ///
    /// # Errors
    ///
    /// It cannot be read, or there is no memory for it.
    fn open(&mut self, file: &str) -> io::Result<Vec<u8>>;
}

/// What takes entries.
pub trait Takes {
    /// A file is opened: its place among the names, from 0.
    fn open(&mut self, _file: usize) {}

    /// Takes an entry, and answers whether it wants the next one at once.
    ///
    /// # Errors
    ///
    /// What it writes cannot be written, or there is no memory.
    fn take(&mut self, entry: &Entry<'_>) -> io::Result<bool>;
}

/// What is wrong with a file of a record.
#[derive(Debug, Drop, Error)]
pub enum Wrong {
    /// It cannot be read.
    #[error("{0}")]
    Unread(io::Error),
    /// It ends within an entry, behind so many bytes. What stands before it was handed on.
    #[error("cut off after {0} bytes")]
    CutOff(usize),
    /// The check word of an entry is another, behind so many bytes.
    #[error("the entry behind {0} bytes is damaged: its check word is another")]
    BadCheck(usize),
    /// What stands behind so many bytes is no entry.
    #[error("what stands behind {0} bytes is no entry of a record")]
    NoEntry(usize),
}

/// A file, and what is wrong with it.
#[derive(Debug, Drop, Error)]
#[error("{file}: {wrong}")]
pub struct Fault<'a> {
    /// The name of the file.
    pub file: &'a str,
    /// What is wrong with it.
    pub wrong: Wrong,
}

/// How far files were read.
#[derive(Clone, Copy, Debug, PartialEq, Eq)]
pub enum Walked {
    /// Up to an entry behind which the taker wanted no other.
    Stopped,
    /// To their ends. A file that is cut off ends at the cut.
    ToTheEnd,
    /// Up to what cannot be read, or is no entry: the last of the faults.
    Broken,
}

/// The files of a record, in their order.
#[derive(Drop)]
pub struct Files<'a> {
    names: Vec<&'a str>,
    /// How many were opened.
    opened: usize,
    /// What is in the last of these.
    bytes: Vec<u8>,
    /// The place of its next entry.
    at: usize,
    /// Nothing more is read.
    is_broken: bool,
    faults: Vec<Fault<'a>>,
}

impl<'a> Files<'a> {
    /// No file yet.
    pub fn new(alloc: Global) -> Files<'a> {
        Files {
            names: Vec::new(alloc),
            opened: 0,
            bytes: Vec::new(alloc),
            at: 0,
            is_broken: false,
            faults: Vec::new(alloc),
        }
    }

    /// These files.
    ///
    /// # Errors
    ///
    /// [`AllocError`] where there is no memory.
    pub fn of(alloc: Global, names: &[&'a str]) -> Result<Files<'a>, AllocError> {
        let mut files = Files::new(alloc);
        files.names.extend_from_slice(names)?;
        Ok(files)
    }

    /// Adds a file behind the others.
    ///
    /// # Errors
    ///
    /// [`AllocError`] where there is no memory.
    pub fn add(&mut self, name: &'a str) -> Result<(), AllocError> {
        self.names.push(name)?;
        Ok(())
    }

    /// Their names.
    pub fn names(&self) -> &[&'a str] {
        self.names.as_slice()
    }

    /// What was wrong with those that were read.
    pub fn faults(&self) -> &[Fault<'a>] {
        self.faults.as_slice()
    }

    /// Whether nothing more is read for a fault, the last one.
    pub fn is_broken(&self) -> bool {
        self.is_broken
    }

    /// What that says of the record.
    pub fn verdict(&self) -> Verdict {
        match self.faults.last() {
            _ if !self.is_broken => Verdict::AsRecorded,
            Some(
                Fault {
                    wrong: Wrong::Unread(_),
                    ..
                },
            ) => Verdict::Failed,
            _ => Verdict::Refused,
        }
    }

    /// Notes what is wrong with the file that is read.
    fn note(&mut self, wrong: Wrong) -> Result<(), AllocError> {
        let place = self.opened.saturating_sub(1);
        let file = self.names.as_slice().get(place).copied().unwrap_or("");
        self.faults.push(Fault { file, wrong })?;
        Ok(())
    }

    /// Nothing more is read.
    fn break_off(&mut self, wrong: Wrong) -> Result<(), AllocError> {
        self.is_broken = true;
        self.at = self.bytes.len();
        self.note(wrong)
    }

    /// Opens the next file, and answers whether it could.
    fn open_next<O: Opens>(&mut self, opener: &mut O) -> Result<bool, AllocError> {
        let Some(name) = self.names.as_slice().get(self.opened).copied() else {
            return Ok(false);
        };
        self.opened = self.opened.saturating_add(1);
        match opener.open(name) {
            Ok(bytes) => {
                self.bytes = bytes;
                self.at = 0;
                Ok(true)
            }
            Err(error) => {
                self.break_off(Wrong::Unread(error))?;
                Ok(false)
            }
        }
    }

    /// Notes why no entry stands at the place that is read.
    fn stop(&mut self, why: Unread) -> Result<(), AllocError> {
        let at = self.at;
        match why {
            Unread::Cut => {
                self.at = self.bytes.len();
                self.note(Wrong::CutOff(at))
            }
            Unread::BadCheck => self.break_off(Wrong::BadCheck(at)),
            Unread::NoEntry => self.break_off(Wrong::NoEntry(at)),
        }
    }

    /// Hands on what is left of the file that is read, and answers whether the taker wants more.
    fn walk_file<T: Takes>(&mut self, taker: &mut T) -> io::Result<bool> {
        for _ in 0..=self.bytes.len() {
            let mut entries = Entries::from(self.bytes.as_slice(), self.at);
            match entries.next_entry() {
                Ok(Some(entry)) => {
                    let goes_on = taker.take(&entry)?;
                    self.at = entries.place();
                    if !goes_on {
                        return Ok(false);
                    }
                }
                Ok(None) => return Ok(true),
                Err(why) => {
                    self.stop(why)?;
                    return Ok(true);
                }
            }
        }
        Ok(true)
    }

    /// Hands on entries, from where the last walk ended, until the taker wants no more.
    ///
    /// # Errors
    ///
    /// What the taker answers, or there is no memory to note what is wrong with a file.
    pub fn walk<O: Opens, T: Takes>(
        &mut self,
        opener: &mut O,
        taker: &mut T,
    ) -> io::Result<Walked> {
        for _ in 0..=self.names.len() {
            if !self.walk_file(taker)? {
                return Ok(Walked::Stopped);
            }
            if self.is_broken || !self.open_next(opener)? {
                break;
            }
            taker.open(self.opened.saturating_sub(1));
        }
        Ok(if self.is_broken {
            Walked::Broken
        } else {
            Walked::ToTheEnd
        })
    }
}
