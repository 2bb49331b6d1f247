//! The time tag of a data frame.

/// What the tag of a data frame says.
#[derive(Clone, Copy, Debug)]
pub struct TimeTag {
    /// Its instant.
    pub instant: u64,
    /// Its time quality byte.
    pub quality: u8,
}
