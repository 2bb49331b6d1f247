//! What is printed beside what is to be printed.

use std::io;

/// Complains of a line that is not the wanted one.
fn complain(
    rt: &impl Eprint,
    name: &str,
    number: usize,
    found: Option<&str>,
    wanted: Option<&str>,
) -> io::Result<()> {
    let found = found.unwrap_or("no line");
    let wanted = wanted.unwrap_or("no line");
    eprintln!(rt; "{name}: line {number}: {found}, not {wanted}")
}

/// Complains of the first line that is not the wanted one; tells whether there is none.
///
/// # Errors
///
/// A standard error that cannot be written.
pub fn agree(rt: &impl Eprint, name: &str, wanted: &str, printed: &[u8]) -> io::Result<bool> {
    if printed == wanted.as_bytes() {
        return Ok(true);
    }
    let mut wanted_lines = wanted.lines();
    let text = str::from_utf8(printed).unwrap_or("");
    for (index, found) in text.lines().enumerate() {
        let number = index.saturating_add(1);
        match wanted_lines.next() {
            Some(line) if line == found => {}
            other => {
                complain(rt, name, number, Some(found), other)?;
                return Ok(false);
            }
        }
    }
    complain(rt, name, 0, None, wanted_lines.next())?;
    Ok(false)
}
