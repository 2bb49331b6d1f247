//! What words of a script say.

use pdc_frame::StreamId;

/// The id of a stream, where the word is one.
pub fn stream_id(word: &str) -> Option<StreamId> {
    match word.parse::<u16>() {
        Ok(id) => StreamId::new(id),
        Err(_) => None,
    }
}
