//! What is shown, as `/data.json` says it.

use serde::Serialize;

/// All that is shown.
#[derive(Drop, Serialize)]
#[serde(rename_all = "camelCase")]
pub struct Shown<'a> {
    pub now_ms: u64,
    pub begun_ms: u64,
    pub rate: u32,
    pub until_ms: u64,
    pub streams: Vec<ShownStream<'a>>,
    pub pmus: Vec<ShownPmu<'a>>,
    pub agreement: ShownAgreement,
}

/// A stream: node A's, node B's or the merger's.
#[derive(Drop, Serialize)]
#[serde(rename_all = "camelCase")]
pub struct ShownStream<'a> {
    pub name: &'static str,
    pub address: &'a str,
    pub wait: u64,
    pub wait_kind: &'a str,
    pub connected: bool,
    pub alive: bool,
    pub since_ms: u64,
    pub age_ms: Option<u64>,
    pub start: u32,
    pub change: u32,
    pub last_ms: Option<u64>,
    pub behind_ms: Option<i64>,
    pub behind_median_ms: Option<u16>,
    pub behind_p99_ms: Option<u16>,
    pub published_median_ms: Option<u16>,
    pub published_p99_ms: Option<u16>,
    pub after_data_median_ms: Option<u16>,
    pub after_data_p99_ms: Option<u16>,
    pub frames_a_second: u32,
    pub frames: u64,
    pub unread: u64,
}

/// How often both nodes agreed.
#[derive(Drop, Serialize)]
#[serde(rename_all = "camelCase")]
pub struct ShownAgreement {
    pub instants: u64,
    pub equal: u64,
    pub different: u64,
}

/// A PMU.
#[derive(Drop, Serialize)]
#[serde(rename_all = "camelCase")]
pub struct ShownPmu<'a> {
    pub source: u16,
    pub name: &'a str,
    pub nominal_hz: u8,
    pub last_ms: Option<u64>,
    pub came_ms: Option<u64>,
    pub age_ms: Option<u64>,
    pub old: bool,
    pub stat: Option<u16>,
    pub frequency_hz: Option<f64>,
    pub rocof_hz_per_s: Option<f64>,
    pub presence: Vec<ShownPresence>,
    pub phasors: Vec<ShownPhasor<'a>>,
    pub analogs: Vec<ShownAnalog<'a>>,
    pub digitals: Vec<u32>,
    pub deviation_mhz: Vec<Option<i16>>,
    pub rocof_chz_per_s: Vec<Option<i16>>,
}

/// A row of the matrix: a PMU on one stream.
#[derive(Drop, Serialize)]
#[serde(rename_all = "camelCase")]
pub struct ShownPresence {
    pub stream: &'static str,
    pub cells: String,
    pub stats: Vec<[u32; 2]>,
}

/// A phasor, in volts or amperes: magnitude and angle in radians, or its parts.
#[derive(Drop, Serialize)]
#[serde(rename_all = "camelCase")]
pub struct ShownPhasor<'a> {
    pub name: &'a str,
    pub unit: &'static str,
    pub magnitude: Option<f64>,
    pub angle_rad: Option<f64>,
    pub re: Option<f64>,
    pub im: Option<f64>,
}

/// An analog value, as it came.
#[derive(Drop, Serialize)]
#[serde(rename_all = "camelCase")]
pub struct ShownAnalog<'a> {
    pub name: &'a str,
    pub value: i16,
}
