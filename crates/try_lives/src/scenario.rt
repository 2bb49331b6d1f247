//! Scenarios: a script with the settings of the world on which it is played.

use pdc_play::{AnySettings, read_settings};
use std::alloc::Global;
use std::rt::Files;
use std::{fs, io};

/// A script with the settings of the world on which it is played.
#[derive(Clone, Copy, Debug)]
pub struct Scenario<'a> {
    /// The name of the script.
    pub name: &'a str,
    /// The settings file of node A.
    a: &'a str,
    /// Of node B.
    b: &'a str,
    /// Of the merger.
    m: &'a str,
}

/// The settings of a world, of either kind each.
#[derive(Debug, Drop)]
pub struct Three {
    pub a: AnySettings,
    pub b: AnySettings,
    pub m: AnySettings,
}

/// The settings in this file.
fn settings_in(
    rt: &(impl Files + AllocGlobal),
    alloc: Global,
    file: &str,
) -> io::Result<AnySettings> {
    let text = fs::read_to_string(rt, file)?;
    read_settings(alloc, &text).map_err(|_| io::Error::other("a file of settings is none"))
}

impl Scenario<'_> {
    /// The scenario of this line: its name and three files, one space between two.
    pub fn of_line(line: &str) -> Option<Scenario<'_>> {
        let (name, files) = line.split_once(' ')?;
        let (a, files) = files.split_once(' ')?;
        let (b, m) = files.split_once(' ')?;
        Some(Scenario { name, a, b, m })
    }

    /// The settings of its world.
    ///
    /// # Errors
    ///
    /// A file that cannot be read, or is no settings.
    pub fn settings(&self, rt: &(impl Files + AllocGlobal), alloc: Global) -> io::Result<Three> {
        Ok(Three {
            a: settings_in(rt, alloc, self.a)?,
            b: settings_in(rt, alloc, self.b)?,
            m: settings_in(rt, alloc, self.m)?,
        })
    }
}
