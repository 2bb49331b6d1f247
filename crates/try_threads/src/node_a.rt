//! Node A of the worked scenarios, and what the sources of its two PMUs do.

use crate::scripted::Act;
use pdc_settings::NodeSettings;
use std::alloc::Global;
use try_script::SettingsText;

/// The configurations of PMU 11 and of PMU 12: one phasor, count 1.
const CONFIG_11: &str =
    "aa32004a000b448527f000000000000f42400001504d5520313120202020202020202020000b000000010000000056412020202020202020202020202020000df847000100010032c2ce";

pub const CONFIG_12: &str =
    "aa32004a000c448527f000000000000f42400001504d5520313220202020202020202020000c000000010000000056412020202020202020202020202020000df847000100010032c29b";

/// Their data for the instant 57478860001.
const DATA_11: &str = "aa02001a000b448527f000004e200000392b000009c400002623";

const DATA_12: &str = "aa02001a000c448527f000004e2000001388ec78fffe0000ce65";

/// Their data for the instant 57478860002.
const NEXT_DATA_11: &str = "aa02001a000b448527f000009c400000392b000009c400008ed7";

const NEXT_DATA_12: &str = "aa02001a000c448527f000009c4000001388ec78fffe00006691";

/// What a source of each PMU does in the runs that end well: its configuration, then its data once the layout shows both PMUs.
pub const PLAIN_11: &[Act] = &[
    Act::Give(CONFIG_11),
    Act::AwaitLayout(3),
    Act::Give(DATA_11),
];

pub const PLAIN_12: &[Act] = &[
    Act::Give(CONFIG_12),
    Act::AwaitLayout(3),
    Act::Give(DATA_12),
];

/// What they do where each waits for the other in the call that gives its data.
pub const MEETS_11: &[Act] = &[
    Act::Give(CONFIG_11),
    Act::AwaitLayout(3),
    Act::Meet(DATA_11),
];

pub const MEETS_12: &[Act] = &[
    Act::Give(CONFIG_12),
    Act::AwaitLayout(3),
    Act::Meet(DATA_12),
];

/// What they do where each gives data for two instants.
pub const TWICE_11: &[Act] = &[
    Act::Give(CONFIG_11),
    Act::AwaitLayout(3),
    Act::Give(DATA_11),
    Act::Give(NEXT_DATA_11),
];

pub const TWICE_12: &[Act] = &[
    Act::Give(CONFIG_12),
    Act::AwaitLayout(3),
    Act::Give(DATA_12),
    Act::Give(NEXT_DATA_12),
];

/// The settings of node A of the worked scenarios: PMUs 11 and 12, at 50 frames a second.
pub fn settings_of(alloc: Global) -> Option<NodeSettings> {
    let text = SettingsText::of(201).node(alloc, &[11, 12], 4811).ok()?;
    NodeSettings::from_toml(alloc, &text).ok()
}
