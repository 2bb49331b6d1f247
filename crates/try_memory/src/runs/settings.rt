//! The settings of two nodes with the PMU 11, and of their merger.

use pdc_history::Fault;
use pdc_life::{MergerSettings, Settings};
use pdc_mark::ModelMark;
use pdc_world::{Leads, World};
use std::alloc::Global;
use std::io;
use std::io::ErrorKind;
use try_script::SettingsText;

/// Those of the node with this id.
pub fn of_node(alloc: Global, id: u16) -> io::Result<Settings> {
    let text = SettingsText::of(id).node(alloc, &[11], 4811)?;
    match pdc_settings::NodeSettings::from_toml(alloc, text.as_str()) {
        Ok(settings) => Ok(settings.life),
        Err(_) => Err(io::Error::from(ErrorKind::InvalidData)),
    }
}

/// Those of the merger.
fn of_merger(alloc: Global) -> io::Result<MergerSettings> {
    let text = SettingsText::of(301).merger(alloc, &[11])?;
    match pdc_settings::MergerSettings::from_toml(alloc, text.as_str()) {
        Ok(settings) => Ok(settings.life),
        Err(_) => Err(io::Error::from(ErrorKind::InvalidData)),
    }
}

/// What a world is made of.
#[derive(Drop)]
pub struct Given {
    a: Settings,
    b: Settings,
    m: MergerSettings,
}

impl Given {
    /// Nodes 201 and 202 and merger 301.
    pub fn new(alloc: Global) -> io::Result<Given> {
        Ok(Given {
            a: of_node(alloc, 201)?,
            b: of_node(alloc, 202)?,
            m: of_merger(alloc)?,
        })
    }

    /// A world of them, over new marks.
    pub fn world(self, alloc: Global) -> Result<World<ModelMark>, Fault> {
        let leads = Leads { a: 0, b: 0, m: 0 };
        match World::new(alloc, self.a, self.b, self.m, leads) {
            Ok(world) => Ok(world),
            Err(fault) => Err(fault.fault),
        }
    }
}

/// What a fault is told as.
pub fn told(fault: Fault) -> &'static str {
    match fault {
        Fault::PremiseBroken(_) => "X1",
        Fault::NoSuchFrame => "X2",
        Fault::NoMemory => "X3 NoMemory",
        Fault::StartsUsedUp => "X4",
    }
}
