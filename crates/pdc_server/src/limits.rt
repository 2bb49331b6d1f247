//! How much of a consumer one turn hears.

/// The most bytes that are read in one turn: some fourteen commands. What came behind them is left in the connection for the next turn.
pub const PIECE_LEN: usize = 256;

/// The most frames that are heard in one turn: no more end in so many bytes, whatever was sent before.
pub const MOST_HEARD: usize = 16;
