//! `pdc help settings`: each key of a settings file.

use pdc_settings::all_keys;
use std::io;

const ABOUT: &str =
    "The keys of a settings file, which is TOML: what must stand at each, what holds where it is left
out, and what it sets. Those in front of all tables come first. A node has a table [[pmu]] for each
PMU; the merger has two tables [[node]], and a table [[pmu]] with `source` alone for each PMU. A key
of both stands in the tables of the streams: in a node's [[pmu]], in the merger's [[node]].";

/// Whether these words ask for the keys.
pub fn are_of_keys(words: &[String]) -> bool {
    match words {
        [help, of] => help.as_str() == "help" && of.as_str() == "settings",
        _ => false,
    }
}

/// Prints each key, in the order of the manual.
pub fn print_keys(rt: &impl Print) -> io::Result<()> {
    println!(rt; "{ABOUT}")?;
    for key in all_keys() {
        let line = key.line();
        println!(rt; "\n{line}")?;
    }
    Ok(())
}
