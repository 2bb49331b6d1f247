//! Texts of settings.

use std::alloc::{AllocError, Global};
use std::fmt::Write;

/// What the settings of a node or the merger say in a trial, as a TOML text: at 50 frames a second, with a time base of a million. What most
/// trials say is [`SettingsText::of`].
#[derive(Clone, Copy, Debug)]
pub struct SettingsText<'a> {
    pub id: u16,
    pub wait: u64,
    pub wait_kind: &'a str,
    pub window: u64,
    pub ahead: u64,
    pub layout_every: u32,
    /// Where frames go. Consumers are served at the port behind it.
    pub out_port: u16,
}

/// The tables of the merger's nodes.
const NODES: &str = "[[node]]
id = 201
time_base = 1000000
port = 4811
[[node]]
id = 202
time_base = 1000000
port = 4812
";

impl<'a> SettingsText<'a> {
    /// Of a concentrator with this id: an instant is held for two ticks, in a window of 64.
    pub fn of(id: u16) -> SettingsText<'a> {
        SettingsText {
            id,
            wait: 2,
            wait_kind: "relative",
            window: 64,
            ahead: 32,
            layout_every: 100,
            out_port: 4712,
        }
    }

    /// What a node and the merger are told alike.
    fn head(&self, alloc: Global) -> Result<String, AllocError> {
        let (id, wait, kind, window) = (self.id, self.wait, self.wait_kind, self.window);
        let (ahead, every, out) = (self.ahead, self.layout_every, self.out_port);
        let session = out.saturating_add(1);
        format!(in alloc;
            "id = {id}\nrate = 50\nnominal = 50\ntime_base = 1000000\nwait = {wait}\nwait_kind = \"{kind}\"\nwindow = {window}\nahead = {ahead}\nlayout_every = {every}\nout_port = {out}\nsession_port = {session}\n"
        )
    }

    /// Of a node: its PMUs, the first of which sends to this port, each other one to the port behind.
    ///
    /// # Errors
    ///
    /// [`AllocError`] where there is no room and none is got.
    pub fn node(&self, alloc: Global, pmus: &[u16], first_port: u16) -> Result<String, AllocError> {
        let mut text = self.head(alloc)?;
        let mut port = first_port;
        for id in pmus {
            write!(
                text,
                "[[pmu]]\nstream = {id}\ntime_base = 1000000\nport = {port}\n"
            )?;
            port = port.saturating_add(1);
        }
        Ok(text)
    }

    /// Of the merger of nodes 201 and 202 and of these sources.
    ///
    /// # Errors
    ///
    /// [`AllocError`] where there is no room and none is got.
    pub fn merger(&self, alloc: Global, sources: &[u16]) -> Result<String, AllocError> {
        let mut text = self.head(alloc)?;
        text.push_str(NODES)?;
        for source in sources {
            write!(text, "[[pmu]]\nsource = {source}\n")?;
        }
        Ok(text)
    }
}
