//! Why a line's frame is not shown.

use pdc_block::BodyFault;
use pdc_cfg::CfgFault;
use pdc_frame::{CommandFault, FrameFault};
use thiserror::Error;

/// Why a line's frame is not shown. Each prints as its code and its name.
#[derive(Clone, Copy, Debug, PartialEq, Eq, Error)]
pub enum NotShown {
    /// The bytes are not a frame.
    #[error(transparent)]
    Frame(FrameFault),
    /// The frame is no configuration, or one that is not shown.
    #[error(transparent)]
    Config(CfgFault),
    /// The frame has no command.
    #[error(transparent)]
    Command(CommandFault),
    /// No CFG-2 of the data frame's id was shown last.
    #[error("B1 NoConfig")]
    NoConfig,
    /// The payload is not the blocks that the configuration has.
    #[error(transparent)]
    Body(BodyFault),
}
