//! Numbers and counts, as scripts write them.

use pdc_life::MAX_PMUS;

/// The numbers that the words say, where they are so many.
pub fn numbers<const N: usize>(words: &[&str]) -> Option<[u64; N]> {
    if words.len() != N {
        return None;
    }
    let mut numbers = [0; N];
    for (place, word) in words.iter().enumerate() {
        *numbers.get_mut(place)? = word.parse().ok()?;
    }
    Some(numbers)
}

/// The counts that the words say, and 0 for the columns that are left.
pub fn counts_of(words: &[&str]) -> Option<[u16; MAX_PMUS]> {
    let mut counts = [0; MAX_PMUS];
    for (place, word) in words.iter().enumerate() {
        *counts.get_mut(place)? = word.parse().ok()?;
    }
    Some(counts)
}
