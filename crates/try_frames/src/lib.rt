//! Tests over the finished libraries of frames, of the command line and of the page that shows a pair, of what no clause says and no script
//! tells: frames byte for byte, readers and writers that fail, small heaps. They stand apart from what they test, so that a test proves no
//! library a second time.
#![tactic(auto)]

#[cfg(test)]
mod tests;
