//! The settings of a node and of the merger, out of TOML.

use crate::trial::{DONE, NO_MEMORY, State, Trial, made, make};
use pdc_settings::{MergerSettings, NodeSettings, SettingsFault};
use std::alloc::{AllocError, Global};
use std::io;
use try_script::SettingsText;

/// A document that is read, and whether it was.
#[derive(Drop)]
struct DocumentTrial {
    alloc: Global,
    is_merger: bool,
    text: String,
    is_made: bool,
}

/// The answer of a reader of settings.
fn of_settings<T: Drop>(answer: Result<T, SettingsFault>) -> &'static str {
    match answer {
        Ok(_) => DONE,
        Err(SettingsFault::Toml) => "S1 Toml",
        Err(SettingsFault::Range(_)) => "S2 Range",
        Err(SettingsFault::DoubledId) => "S3 DoubledId",
        Err(SettingsFault::NoMemory) => NO_MEMORY,
    }
}

impl Trial for DocumentTrial {
    fn name(&self) -> &'static str {
        if self.is_merger {
            "MergerSettings::from_toml"
        } else {
            "NodeSettings::from_toml"
        }
    }

    fn state(&self) -> State {
        made(self.is_made)
    }

    fn call(&mut self) -> &'static str {
        let answer = if self.is_merger {
            of_settings(MergerSettings::from_toml(self.alloc, &self.text))
        } else {
            of_settings(NodeSettings::from_toml(self.alloc, &self.text))
        };
        self.is_made = answer == DONE;
        answer
    }

    fn renew(&mut self) -> Result<(), AllocError> {
        Ok(())
    }
}

/// Each document.
pub fn play<R: Print>(rt: &R, alloc: Global) -> io::Result<()> {
    for is_merger in [false, true] {
        let text = if is_merger {
            SettingsText::of(301).merger(alloc, &[11, 12])?
        } else {
            SettingsText::of(201).node(alloc, &[11, 12], 4811)?
        };
        make(
            rt,
            &mut DocumentTrial {
                alloc,
                is_merger,
                text,
                is_made: false,
            },
        )?;
    }
    Ok(())
}
