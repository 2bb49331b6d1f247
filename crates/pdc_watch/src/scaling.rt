//! What the words of a block stand for.
ghost use Rattle.std.specs.Prelude.{◌≡◌, ◌*◌, ◌≤◌, ◌%◌, ◌^◌, ◌/◌, ◌*ℤ◌, pos, nat_eq, not};
ghost use Rattle.pdc_watch.specs.declared.scaling.TheConstants.{MAX_SCALE};

/// The greatest scale of a phasor, which has 24 bits.
pub const MAX_SCALE: u32 = 0x00FF_FFFF;

/// The scale that PHUNIT tells: how many hundred-thousandths of a volt or an ampere a count is (C37.118.2-2011, table 9, PHUNIT).
pub fn scale_of(unit: u32) -> u32
    ensures value { result ≡ unit % 2 ^ 24 }
    ensures fits { result ≤ MAX_SCALE }
{
    unit % 0x0100_0000
}

/// Whether PHUNIT tells of a current: its high byte is 0 of a voltage, and 1 of a current. Any other is taken for a current, as where frames are
/// printed as JSON and CSV.
pub fn is_current(unit: u32) -> bool
    ensures { result ≡ not (nat_eq (unit / 2 ^ 24) 0) }
{
    unit / 0x0100_0000 != 0
}

/// A magnitude, in hundred-thousandths of a volt or an ampere.
pub fn scaled_magnitude(word: u16, scale: u32) -> u64
    requires { scale ≤ MAX_SCALE }
    ensures { result ≡ word * scale }
{
    u64::from(word) * u64::from(scale)
}

/// A real or imaginary part, in hundred-thousandths of a volt or an ampere.
pub fn scaled_part(part: i16, scale: u32) -> i64
    requires { scale ≤ MAX_SCALE }
    ensures { result ≡ part *ℤ pos scale }
{
    i64::from(part) * i64::from(scale)
}
