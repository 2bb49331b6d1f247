//! Checking the files.

use crate::printing::{Totals, tell, tell_of_two};
use pdc_any_mark::read_mark_file;
use pdc_check::{
    Level, Misfit, Outline, alike, findings, mark_misfits, misfits, port_findings, port_misfits,
    read_outline,
};
use pdc_settings::{Document, Mistake, SettingsFault, mistake_in};
use std::alloc::Global;
use std::fs::File;
use std::rt::Files;
use std::{fs, io};

/// The exit statuses.
const DONE: u8 = 0;

const REFUSED: u8 = 1;

const FAILED: u8 = 3;

/// A file whose settings were read.
#[derive(Drop)]
struct Checked<'a> {
    file: &'a str,
    outline: Outline,
}

/// Tells the keys of a document that nothing reads.
fn tell_unknown(
    rt: &(impl Print + AllocGlobal),
    totals: &mut Totals,
    file: &str,
    document: &Document,
) -> io::Result<()> {
    if let Ok(unknown) = document.unknown_keys(rt.alloc()) {
        for key in &unknown {
            tell(rt, totals, Level::Warning, file, key)?;
        }
    }
    Ok(())
}

/// Tells what is odd in a file by itself.
fn tell_alone(
    rt: &(impl Print + AllocGlobal),
    totals: &mut Totals,
    file: &str,
    outline: &Outline,
) -> io::Result<()> {
    let alloc = rt.alloc();
    for finding in &findings(alloc, outline)? {
        tell(rt, totals, finding.level(), file, finding)?;
    }
    for finding in &port_findings(alloc, &outline.ports)? {
        tell(rt, totals, finding.level(), file, finding)?;
    }
    Ok(())
}

/// Tells what of a file does not fit another one.
fn tell_all(
    rt: &impl Print,
    totals: &mut Totals,
    one: &Checked<'_>,
    other: &Checked<'_>,
    found: &[Misfit],
) -> io::Result<()> {
    for misfit in found {
        tell_of_two(rt, totals, misfit.level(), one.file, misfit, other.file)?;
    }
    Ok(())
}

/// Tells what of two files does not fit.
fn tell_pair(
    rt: &(impl Print + AllocGlobal),
    totals: &mut Totals,
    one: &Checked<'_>,
    other: &Checked<'_>,
) -> io::Result<()> {
    let alloc = rt.alloc();
    let found = alike(alloc, &one.outline, &other.outline)?;
    tell_all(rt, totals, one, other, &found)?;
    let found = port_misfits(alloc, &one.outline.ports, &other.outline.ports)?;
    tell_all(rt, totals, one, other, &found)?;
    let found = misfits(alloc, &one.outline, &other.outline)?;
    tell_all(rt, totals, one, other, &found)?;
    let found = misfits(alloc, &other.outline, &one.outline)?;
    tell_all(rt, totals, other, one, &found)
}

/// Tells what of settings does not fit the mark in a file.
fn tell_mark<R: Files<File = File> + Print + AllocGlobal>(
    rt: &R,
    totals: &mut Totals,
    checked: &Checked<'_>,
    mark: &str,
) -> io::Result<()> {
    match read_mark_file(rt, mark) {
        Ok(found) => {
            let found = mark_misfits(rt.alloc(), &checked.outline, found.id, found.rate)?;
            for misfit in &found {
                tell_of_two(rt, totals, misfit.level(), checked.file, misfit, mark)?;
            }
            Ok(())
        }
        Err(fault) => tell(rt, totals, Level::Error, mark, &fault.reason()),
    }
}

/// Reads the outline of a text, and tells the keys that nothing reads.
fn outline_of(
    rt: &(impl Print + AllocGlobal),
    totals: &mut Totals,
    file: &str,
    text: &str,
) -> io::Result<Result<Outline, SettingsFault>> {
    let alloc = rt.alloc();
    match Document::parse(alloc, text) {
        Ok(document) => {
            tell_unknown(rt, totals, file, &document)?;
            Ok(read_outline(alloc, &document))
        }
        Err(fault) => Ok(Err(fault)),
    }
}

/// Tells what is wrong in a text by itself, and returns its outline where it is settings.
fn check_text(
    rt: &(impl Print + AllocGlobal),
    totals: &mut Totals,
    file: &str,
    text: &str,
) -> io::Result<Option<Outline>> {
    match outline_of(rt, totals, file, text)? {
        Ok(outline) => {
            tell_alone(rt, totals, file, &outline)?;
            Ok(Some(outline))
        }
        Err(fault) => {
            let mistake = mistake_in(rt.alloc(), text, fault);
            tell(rt, totals, Level::Error, file, &mistake)?;
            Ok(None)
        }
    }
}

/// Tells what is wrong in a file by itself; one that is not UTF-8 is no TOML.
fn check_bytes(
    rt: &(impl Print + AllocGlobal),
    totals: &mut Totals,
    file: &str,
    bytes: Vec<u8>,
) -> io::Result<Option<Outline>> {
    match String::from_utf8(bytes) {
        Ok(text) => check_text(rt, totals, file, &text),
        Err(_) => {
            let mistake = Mistake::Fault(SettingsFault::Toml);
            tell(rt, totals, Level::Error, file, &mistake)?;
            Ok(None)
        }
    }
}

/// Tells what of each two files does not fit.
fn check_pairs(
    rt: &(impl Print + AllocGlobal),
    totals: &mut Totals,
    files: &[Checked<'_>],
) -> io::Result<()> {
    for (at, other) in files.iter().enumerate() {
        for one in files.iter().take(at) {
            tell_pair(rt, totals, one, other)?;
        }
    }
    Ok(())
}

/// Tells how many errors and warnings there are, and answers the exit status.
fn end(rt: &impl Print, count: usize, totals: Totals) -> io::Result<u8> {
    let (errors, warnings) = (totals.errors, totals.warnings);
    println!(rt; "files={count} errors={errors} warnings={warnings}")?;
    Ok(if errors == 0 { DONE } else { REFUSED })
}

/// Checks the files, each by itself and with its mark, where one is given, and then each with each other.
pub fn run_check<R: Files<File = File> + Print + Eprint + AllocGlobal>(
    rt: &R,
    files: &[&str],
    marks: &[&str],
) -> io::Result<u8> {
    let mut totals = Totals {
        errors: 0,
        warnings: 0,
    };
    let mut checked = Vec::new(rt.alloc());
    for (at, file) in files.iter().enumerate() {
        let bytes = match fs::read(rt, *file) {
            Ok(bytes) => bytes,
            Err(error) => {
                eprintln!(rt; "device fault")?;
                eprintln!(rt; "pdc check: {file}: {error}")?;
                return Ok(FAILED);
            }
        };
        if let Some(outline) = check_bytes(rt, &mut totals, file, bytes)? {
            let settings = Checked { file, outline };
            if let Some(mark) = marks.get(at) {
                tell_mark(rt, &mut totals, &settings, mark)?;
            }
            checked.push(settings)?;
        }
    }
    check_pairs(rt, &mut totals, &checked)?;
    end(rt, files.len(), totals)
}
