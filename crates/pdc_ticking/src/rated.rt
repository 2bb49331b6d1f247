//! How many instants a second has, for contracts.
ghost use Rattle.std.specs.Prelude.{ℕ};

use std::marker::Brand;

/// How many frames a second has, by whose instants a clock ticks. It exists for contracts alone, and each call of a program that makes a ticker
/// picks it.
pub trait Rated {
    ghost rate: { ℕ };
}

/// None until it is picked.
impl Rated for Brand {
    ghost rate = { 0 };
}
