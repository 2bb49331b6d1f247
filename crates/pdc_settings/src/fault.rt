//! Why a text is no settings.

use pdc_keys::Wanted;
use thiserror::Error;

/// Why a text is no settings: the first of these that holds, in this order. Each prints as its code and its name.
#[derive(Clone, Copy, Debug, PartialEq, Eq, Error)]
pub enum SettingsFault {
    /// It is no TOML.
    #[error("S1 Toml")]
    Toml,
    /// A key is missing, or its value is of another type or out of its range. Here is the key, with what was wanted.
    #[error("S2 Range")]
    Range(Wanted),
    /// Two ids are the same that must differ.
    #[error("S3 DoubledId")]
    DoubledId,
    /// Memory was wanted, and none was to be had.
    #[error("Z1 NoMemory")]
    NoMemory,
}
