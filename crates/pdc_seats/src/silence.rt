//! Who has been silent longest.
ghost use Rattle.std.specs.Prelude.{◌≡◌, ◌≤◌, ◌+◌, length};
ghost use Rattle.pdc_seats.specs.Silence.{gives_way, longer, longest};

/// For how long a consumer has been silent.
#[derive(Clone, Copy, Debug, PartialEq, Eq)]
pub struct Silence {
    /// The number of its place, from 0.
    pub number: usize,
    /// How many milliseconds it has been silent.
    pub millis: u64,
}

/// The longer one of the silence at the place with this number, and of one behind it; the first where both are equally long.
fn longer(number: usize, millis: Option<u64>, later: Option<Silence>) -> Option<Silence>
    ensures { result ≡ longer number millis later }
{
    match millis {
        Some(millis) => match later {
            Some(later) => {
                if later.millis <= millis {
                    Some(Silence { number, millis })
                } else {
                    Some(later)
                }
            }
            None => Some(Silence { number, millis }),
        },
        None => later,
    }
}

/// The longest of these silences, the first of those. The first of them is that at the place with this number. None where no place is taken.
pub fn longest(number: usize, silences: &[Option<u64>]) -> Option<Silence>
    requires { number + length silences.now ≤ usize.MAX }
    ensures { result ≡ longest number silences.now }
{
    match silences.split_first() {
        Some((millis, later)) => longer(number, *millis, longest(number + 1, later)),
        None => None,
    }
}

/// Whether the consumer at the place with this number gives way: it has been silent longest, and for so many milliseconds at least.
pub fn gives_way(number: usize, least: u64, silences: &[Option<u64>]) -> bool
    requires { length silences.now ≤ usize.MAX }
    ensures { result ≡ gives_way number least silences.now }
{
    match longest(0, silences) {
        Some(silence) => silence.number == number && silence.millis >= least,
        None => false,
    }
}
