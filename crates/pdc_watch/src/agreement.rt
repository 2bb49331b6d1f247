//! How often two nodes agreed.
ghost use Rattle.std.specs.Prelude.{◌≡◌};
ghost use Rattle.pdc_watch.specs.Agreement.{counted};

/// Of how many instants, which both nodes published, all blocks present in both under one count were equal, and of how many not.
#[derive(Clone, Copy)]
pub struct Agreement {
    pub equal: u64,
    pub different: u64,
}

impl Agreement {
    /// The counts with one more instant.
    pub fn counted(self, is_equal: bool) -> Agreement
        ensures { result ≡ counted self is_equal }
    {
        if is_equal {
            Agreement {
                equal: self.equal.saturating_add(1),
                different: self.different,
            }
        } else {
            Agreement {
                equal: self.equal,
                different: self.different.saturating_add(1),
            }
        }
    }
}
