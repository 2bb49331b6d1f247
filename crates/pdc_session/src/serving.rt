//! What replies are made of.

use pdc_cfg::ConfigView;

/// What a session's replies are made of.
#[derive(Debug, Drop)]
pub struct Serving<'a> {
    /// The second that replies are dated with.
    pub soc: u32,
    /// The text of the header frame, at most 65519 bytes.
    pub header: &'a [u8],
    /// The configuration that is told as CFG-1 and CFG-2.
    pub layout: ConfigView<'a>,
}
