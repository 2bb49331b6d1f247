//! Sources that said nothing yet.
ghost use Rattle.std.specs.Prelude.{◌≡◌, ◌+◌, ◌++◌, ◌∷◌, [], OnOk, length};
ghost use Rattle.pdc_sockets.specs.Silent.{AreSilent};

use pdc_memory::make_room;
use pdc_ports::Source;
use std::alloc::{AllocError, Global};

/// Sources, in order, of which none said anything yet.
#[derive(Drop)]
pub struct Silent<S: Source + Drop> {
    sources: Vec<S>,
    pub ghost silent: { AreSilent S.told sources.items },
}

impl<S: Source + Drop> Silent<S> {
    /// No source.
    pub fn new(alloc: Global) -> Silent<S>
        ensures { result.sources.items ≡ [] }
    {
        Silent {
            sources: Vec::new(alloc),
        }
    }

    /// How many sources there are.
    pub fn len(&self) -> usize
        ensures { result ≡ length self.now.sources.items }
    {
        self.sources.len()
    }

    /// Puts a source behind the others.
    ///
    /// # Errors
    ///
    /// [`AllocError`] where there is no room and none is got; the sources are as they were.
    pub fn push(&mut self, source: S) -> Result<(), AllocError>
        requires { S.told source [] }
        ensures { OnOk result (self.new.sources.items ≡ self.old.sources.items ++ source ∷ []) }
    {
        let sources = &mut self.sources;
        make_room(sources, 1)?;
        sources.push_reserved(source);
        Ok(())
    }

    /// The sources.
    pub fn into_sources(self) -> Vec<S>
        ensures same { result ≡ self.sources }
        ensures silent { AreSilent S.told result.items }
    {
        self.sources
    }
}
