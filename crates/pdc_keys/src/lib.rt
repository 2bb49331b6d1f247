//! Values at the keys of a settings text, what is wanted at each, and keys that nothing reads.
//!
//! The functions to look at first are [`value_at`] and [`number`]; [`Wanted`] names each key with what may stand there.
//!
//! To the layers above this crate promises that what is read at a key is what stands there in the document, and is in its range.
#![tactic(auto)]

mod finding;
mod key;
mod keys;
mod limits;
mod nearest;
mod owner;
mod places;
mod table;
mod text;
mod unknown;
mod unread;
mod wanted;

pub use finding::unknown_keys_in;
pub use key::{Choice, Key, Range, Usual, Values};
pub use keys::{
    number, number_from, number_of, number_or, optional_number, optional_number_of,
    optional_number_to, value_at, values_at,
};
pub use limits::{MAX_COUNT, MAX_PORT, MAX_TIME_BASE};
pub use owner::Owner;
pub use pdc_memory::make_room;
pub use places::{ip_of, place_of};
pub use table::all_keys;
pub use unknown::{TableName, UnknownKey};
pub use unread::Unread;
pub use wanted::Wanted;
