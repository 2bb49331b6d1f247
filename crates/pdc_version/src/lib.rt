//! The version of the programs: one for all of them, for the heads of their records and for the package.
#![tactic(auto)]

/// As `--version` prints it: major, minor and patch.
pub const VERSION: &str = "0.1.0";

/// As the head of a record has it: major, minor and patch.
pub const VERSION_NUMBERS: [u16; 3] = [0, 1, 0];
