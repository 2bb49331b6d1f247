//! The plain program of a life, of a node or of the merger: steps in, answers, rows, layout and published frames out.
//!
//! It is slow, and meant to be read: each function is one definition of pdc_life, asked of the whole list of the steps, and its
//! contract says so. Node and merger differ in what bytes say and in what an arrival is answered; all else is one program. The
//! worked examples run through it with real frames.
//!
//! The first type to look at is [`Life`], and the first functions [`live_node`] and [`live_merger`].
//!
//! The promise to the layers above: what these steps are answered, close, publish and lay out is what the one life of these
//! steps has.
#![tactic(auto)]

mod held_layout;
mod layouts;
mod life;
mod living;
mod merger;
mod node;
mod opening;
mod publishing;
mod time_tag;

pub use life::Life;
pub use living::{live_merger, live_node};
pub use opening::Opening;
