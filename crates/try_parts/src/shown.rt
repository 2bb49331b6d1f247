//! Captured frames, and what `pdc show` prints of them: `show/NAME.hex` and `show/NAME.txt`.

use pdc_show::{Shown, run_show};
use std::alloc::Global;
use std::rt::Files;
use std::{fs, io};

/// The file of this name.
fn bytes_of(
    rt: &(impl Files + AllocGlobal),
    alloc: Global,
    name: &str,
    ending: &str,
) -> io::Result<Vec<u8>> {
    fs::read(rt, format!(in alloc; "show/{name}.{ending}")?)
}

/// Whether these lines are printed of the input, and each of its lines is shown as wanted; complains where it is not so.
fn is_shown(
    rt: &impl Eprint,
    alloc: Global,
    name: &str,
    mut input: &[u8],
    lines: &[u8],
    wanted: Shown,
) -> io::Result<bool> {
    let mut printed = Vec::new(alloc);
    let outcome = run_show(alloc, &mut input, &mut printed);
    if printed.as_slice() == lines && matches!(outcome, Ok(shown) if shown == wanted) {
        return Ok(true);
    }
    eprintln!(rt; "show/{name}.hex: {outcome:?}, and what is printed:")?;
    eprintln!(rt; "{}", printed.escape_ascii())?;
    Ok(false)
}

/// Shows the frames of this name, and says that it did; complains where what is printed, or whether each line was shown, is not as wanted,
/// and tells whether it is.
///
/// # Errors
///
/// A file that cannot be read, want of memory, or a standard error that cannot be written.
pub fn play_shown(
    rt: &(impl Files + AllocGlobal + Eprint + Print),
    alloc: Global,
    how: &str,
    name: &str,
    wanted: Shown,
) -> io::Result<bool> {
    let input = bytes_of(rt, alloc, name, "hex")?;
    let lines = bytes_of(rt, alloc, name, "txt")?;
    let as_wanted = is_shown(rt, alloc, name, &input, &lines, wanted)?;
    println!(rt; "{how} {name}: 1 played")?;
    Ok(as_wanted)
}
