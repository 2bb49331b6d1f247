//! The reading and writing paths and the table, as a static library that `bench/` calls beside plain Rust.
//!
//! Each call does the work and gives a number that depends on all of it, so that no compiler leaves any out.
#![tactic(auto)]

mod cores;
mod reading;
mod table;
mod writing;
