//! The settings that cores are opened with.

use pdc_life::{MergerSettings, Settings};
use std::alloc::Global;
use std::io;
use try_script::SettingsText;

/// Those of node 201 with two PMUs.
pub fn of_node(alloc: Global) -> io::Result<Settings> {
    let text = SettingsText::of(201).node(alloc, &[11, 12], 4811)?;
    match pdc_settings::NodeSettings::from_toml(alloc, &text) {
        Ok(settings) => Ok(settings.life),
        Err(_) => Err(io::Error::from(io::ErrorKind::OutOfMemory)),
    }
}

/// Those of merger 301 with two sources.
pub fn of_merger(alloc: Global) -> io::Result<MergerSettings> {
    let text = SettingsText::of(301).merger(alloc, &[11, 12])?;
    match pdc_settings::MergerSettings::from_toml(alloc, &text) {
        Ok(settings) => Ok(settings.life),
        Err(_) => Err(io::Error::from(io::ErrorKind::OutOfMemory)),
    }
}
