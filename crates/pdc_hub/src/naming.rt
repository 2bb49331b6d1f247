//! Which life is recorded, for contracts.
ghost use Rattle.std.specs.Prelude.{None, Option};
ghost use Rattle.pdc_life.specs.Given.{Given};

use crate::ledgers::Ledgers;
use std::marker::Brand;

/// Which life is recorded, and in which ledgers: what is given to it, and the settings by which its bytes are read. It exists for contracts
/// alone, and each call of a program that makes a hub picks it.
pub trait Naming<S>: Ledgers {
    ghost given: { Option Given };

    ghost settings: { Option S };
}

/// Nothing is named until it is picked.
impl<S> Naming<S> for Brand {
    ghost given = { None };

    ghost settings = { None };
}
