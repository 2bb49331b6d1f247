//! The addresses of a host.
ghost use Rattle.std.specs.Prelude.{◌≡◌, ◌≤◌, ◌<◌, ◌∷◌, Some, [], slice_get};
ghost use Rattle.pdc_network.specs.Round.{next_place};

use std::net::SocketAddr;

/// How many addresses of a host are tried.
const MAX_ADDRESSES: usize = 8;

/// The addresses of a host in the order in which the system named them, at most eight, one of which is tried at a time.
#[derive(Clone, Copy, Debug)]
pub struct Addresses {
    all: [SocketAddr; MAX_ADDRESSES],
    count: usize,
    at: usize,
    pub ghost within: { at < count },
    pub ghost most: { count ≤ 8 },
}

impl Addresses {
    ghost use Rattle.pdc_network.specs.Host.{all_of, all_with, count_of, place_of};

    /// A host of one address.
    pub fn new(first: SocketAddr) -> Addresses
        ensures all { all_of result ≡ first ∷ [] }
        ensures place { place_of result ≡ 0 }
    {
        Addresses {
            all: [first; MAX_ADDRESSES],
            count: 1,
            at: 0,
        }
    }

    /// One address more; the ninth and all behind it are left out.
    pub fn push(&mut self, address: SocketAddr)
        ensures all { all_of self.new ≡ all_with address self.old }
        ensures place { place_of self.new ≡ place_of self.old }
    {
        if self.count < MAX_ADDRESSES {
            self.all[self.count] = address;
            self.count += 1;
        }
    }

    /// The one that is tried now.
    pub fn current(&self) -> SocketAddr
        ensures { slice_get (all_of self.now) (place_of self.now) ≡ Some result }
    {
        self.all[self.at]
    }

    /// The next one is tried from now on, and behind the last the first.
    pub fn turn(&mut self)
        ensures all { all_of self.new ≡ all_of self.old }
        ensures place { place_of self.new ≡ next_place (count_of self.old) (place_of self.old) }
    {
        let next = self.at + 1;
        self.at = if self.count <= next { 0 } else { next };
    }
}
