//! The tests of `pdc_disk` and `pdc_mark`, which stand on the finished libraries.
#![tactic(auto)]

#[cfg(test)]
mod tests;
