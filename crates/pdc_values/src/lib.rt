//! What the words of a data block stand for, in volts, amperes and hertz, as text (IEEE C37.118.2-2011, 6.3 and 6.4).
//!
//! [`channels_of`] gives the channels of a section with their names, [`Field`] names what of a block is written, and [`Template`] is a text with places for fields, made once for each section of a configuration.
//! Its promise to the layers above: where a number is a word of the frame times a factor of its configuration, it is exactly that, with all
//! its digits; what is computed beside it (a length, an angle, a part of a polar phasor) is a float, rounded to a fixed digit.
#![tactic(auto)]

mod channel;
mod field;
mod moment;
mod own;
mod phasor;
mod quantity;
mod scaled;
mod stat_words;
mod template;

pub use channel::{
    Channel, Fixed, Kind, Quantity, channels_of, fixed_of, nominal_frequency, station_name,
};
pub use field::Field;
pub use moment::{SecondText, microseconds};
pub use phasor::Phasor;
pub use quantity::{MAX_FACTOR, analog_factor, phasor_factor};
pub use scaled::{append_count, append_whole};
pub use template::Template;
