//! Which stream's frames are kept, for contracts.
ghost use Rattle.pdc_server.specs.Stream.{Stream};

use std::marker::Brand;

/// Which stream's frames are kept. It exists for contracts alone, and each call of a program that keeps frames picks it.
pub trait Naming {
    ghost stream: { Stream };
}

/// No stream's until it is picked: there is none of id 0.
impl Naming for Brand {
    ghost stream = { record { id = 0; time_base = 0; rate = 0 } };
}
