//! Tests over the finished libraries, from rows on, of what no clause says and no script tells: marks in files, frames of rows byte for
//! byte, scripts whose reader or writer fails. They stand apart from what they test, so that a test proves no library a second time.
#![tactic(auto)]

#[cfg(test)]
mod tests;
