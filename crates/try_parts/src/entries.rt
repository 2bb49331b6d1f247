//! The entries of a record: what each says, whether it is written so again, and what is told of it with any one of its bytes changed. Then all
//! that were read are one record, which is cut at every byte.

use crate::changes::{Answers, answers_to_changes, is_written_again};
use crate::cuts::{Record, cuts_that_differ};
use pdc_record::read_entry;
use std::alloc::Global;
use std::rt::Files;
use std::{fs, io};

/// Prints what the bytes begin with, and plays the entry that they are.
fn play_entry(rt: &impl Print, alloc: Global, bytes: &[u8], record: &mut Record) -> io::Result<()> {
    match read_entry(bytes) {
        Err(cause) => println!(rt; "{cause:?}")?,
        Ok((entry, len)) => {
            println!(rt; "{len} {entry:?}")?;
            let written = if is_written_again(alloc, &entry, bytes) {
                "written again"
            } else {
                "written otherwise"
            };
            let Answers {
                cut,
                no_entry,
                bad_check,
                read,
            } = answers_to_changes(alloc, bytes)?;
            println!(rt;
                "  {written}; changed: {cut} Cut, {no_entry} NoEntry, {bad_check} BadCheck, {read} read"
            )?;
            record.add(bytes)?;
        }
    }
    Ok(())
}

/// Plays each entry of the file, and then the record that they are.
pub fn play(
    rt: &(impl Files + AllocGlobal + Print),
    alloc: Global,
    file: &str,
) -> io::Result<bool> {
    let text = fs::read_to_string(rt, file)?;
    let mut record = Record::new(alloc);
    for line in text.lines() {
        match hex::decode(alloc, line) {
            Ok(bytes) => play_entry(rt, alloc, bytes.as_slice(), &mut record)?,
            Err(_) => println!(rt; "no hexadecimal")?,
        }
    }
    let cuts = record.bytes().len();
    let differ = cuts_that_differ(&record);
    println!(rt; "{cuts} bytes in one record, cut at each: {differ} are not read up to the cut")?;
    Ok(true)
}
