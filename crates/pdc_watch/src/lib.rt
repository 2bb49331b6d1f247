//! What is known of a pair at work, out of the frames of both nodes and the merger: which of them live, which PMU's data came, what it
//! says, and whether both nodes published the same.
//!
//! The type to look at first is [`Watch`], which takes frames. To the layers above this crate promises what a cell of the matrix of
//! presence says, when two published frames agree, how phasors are scaled, which path asks for what, and that its rings take no more
//! memory than at first.
//!
//! [`json_of`] tells it as the text of `/data.json`; [`PAGE`], [`STYLE`] and [`SCRIPT`] are what a browser is given to draw it, which asks
//! no other host for anything.
#![tactic(auto)]

mod age;
mod agreement;
mod cell;
mod delays;
mod heard;
mod metered;
mod now;
mod origin;
mod page;
mod phasors;
mod pmu;
mod presence;
mod presences;
mod present;
mod published;
mod route;
mod scaling;
mod script;
mod showing;
mod shown;
mod slot;
mod station;
mod streams;
mod strip;
mod style;
mod watch;
mod who;
mod within;

pub use age::{is_old, patience};
pub use agreement::Agreement;
pub use cell::{Cell, MAX_RATE, due};
pub use delays::{DELAYS, Delays, percentile, place_of};
pub use heard::Heard;
pub use metered::Metered;
pub use now::Now;
pub use origin::Origin;
pub use page::PAGE;
pub use pmu::Pmu;
pub use presence::{Presence, TENTHS};
pub use present::{PresentBlock, all_agree};
pub use published::{MOST_FRAMES, Published, PublishedFrame};
pub use route::{Resource, route_of};
pub use scaling::{MAX_SCALE, is_current, scale_of, scaled_magnitude, scaled_part};
pub use script::SCRIPT;
pub use showing::json_of;
pub use slot::Slot;
pub use station::{Channel, Station};
pub use strip::{POINTS, Point, Strip};
pub use style::STYLE;
pub use watch::Watch;
pub use who::{Three, Who};
pub use within::{Lateness, PLACES, Within, bound_ms, place_of_bound};
