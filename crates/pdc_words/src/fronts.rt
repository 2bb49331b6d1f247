//! Check words of frames that have one rest behind other fronts. Of frames that follow one another the fronts mostly differ in the same bytes
//! from those that go out for them, so that what the check words differ in need not be worked out again.
ghost use Rattle.std.specs.Prelude.{◌≡◌, ◌++◌, bit_xor, false, length, true};
ghost use Rattle.pdc_words.specs.CheckWord.{check_word_of};
ghost use Rattle.pdc_words.specs.Fronts.{front_of};
ghost use Rattle.pdc_words.specs.Linear.{IsPower, check_of_difference, xor_bytes};

use crate::crc::check_word;
use crate::crc_moved::{moved_past, power_past};

/// The bytes of either part of a front: before the payload (6.2, table 2), and of the own block of a concentrator.
pub const PART_LEN: usize = 14;

/// The bytes in front of the blocks in the data frame of a concentrator: both parts.
pub const FRONT_LEN: usize = 28;

/// The front of a frame, and the check word of the whole frame: of the front and what stands between it and CHK.
#[derive(Clone, Copy, Debug, PartialEq, Eq)]
pub struct CheckedFront {
    /// The front.
    pub bytes: [u8; FRONT_LEN],
    /// The check word.
    pub check: u16,
}

/// The same, lent from a frame, where both parts of the front lie. It is copied once, to where it is kept: a copy between would be read back
/// before it is written, and wait.
#[derive(Clone, Copy, Debug)]
pub struct LentFront<'a> {
    /// What stands before the payload.
    pub header: &'a [u8; PART_LEN],
    /// The own block.
    pub own: &'a [u8; PART_LEN],
    /// The check word.
    pub check: u16,
}

impl CheckedFront {
    /// Makes this a copy.
    #[inline(always)]
    pub fn set(&mut self, lent: &LentFront<'_>)
        ensures { self.new ≡ front_of lent.now }
    {
        let (header, own) = (lent.header, lent.own);
        write_front(&mut self.bytes, header, own);
        self.check = lent.check;
    }
}

/// Writes both parts over this front.
#[inline(always)]
fn write_front(front: &mut [u8; FRONT_LEN], header: &[u8; PART_LEN], own: &[u8; PART_LEN])
    ensures { front.new ≡ header.now ++ own.now }
{
    let (first, second) = front.split_at_mut(PART_LEN);
    first.copy_from_slice(header);
    second.copy_from_slice(own);
}

/// What two fronts differ in, and what the check words differ in of frames that have a rest of one length behind them. It is worked out where
/// fronts differ in other bytes than those before, or the rest has another length.
#[derive(Clone, Copy, Debug)]
pub struct FrontDifference {
    /// What each byte of the fronts differs in.
    fronts: [u8; FRONT_LEN],
    /// The length of the rest.
    rest: usize,
    /// The number that moves past the rest.
    power: u16,
    /// What the check words differ in.
    checks: u16,
    pub ghost moves: { ∥ IsPower rest power ∥₁ },
    pub ghost told: { checks ≡ check_of_difference fronts rest },
}

impl FrontDifference {
    /// That of a front from itself, with no rest.
    pub fn new() -> FrontDifference {
        FrontDifference {
            fronts: [0; FRONT_LEN],
            rest: 0,
            power: power_past(0),
            checks: 0,
        }
    }

    /// The check word of a front and the rest behind it, where that of another front with the same rest is known.
    #[inline(always)]
    pub fn check_behind(
        &mut self,
        known: &CheckedFront,
        front: &[u8; FRONT_LEN],
        rest: &[u8],
    ) -> u16
        requires { known.now.check ≡ check_word_of (known.now.bytes ++ rest.now) }
        ensures { result ≡ check_word_of (front.now ++ rest.now) }
    {
        self.check_of(&known.bytes, known.check, front, rest)
    }

    /// The same of a front whose parts lie apart.
    #[inline(always)]
    pub fn check_behind_parts(
        &mut self,
        known: &CheckedFront,
        header: &[u8; PART_LEN],
        own: &[u8; PART_LEN],
        rest: &[u8],
    ) -> u16
        requires { known.now.check ≡ check_word_of (known.now.bytes ++ rest.now) }
        ensures { result ≡ check_word_of ((header.now ++ own.now) ++ rest.now) }
    {
        self.check_of_parts(&known.bytes, known.check, header, own, rest)
    }

    /// The same, with the known front and its check word by themselves.
    #[inline(always)]
    fn check_of_parts(
        &mut self,
        known: &[u8; FRONT_LEN],
        check: u16,
        header: &[u8; PART_LEN],
        own: &[u8; PART_LEN],
        rest: &[u8],
    ) -> u16
        requires { check ≡ check_word_of (known.now ++ rest.now) }
        ensures { result ≡ check_word_of ((header.now ++ own.now) ++ rest.now) }
    {
        self.meet_parts(known, header, own, rest.len());
        check ^ self.checks
    }

    /// Makes this what these fronts differ in, of which the parts of the second lie apart, with a rest of this length.
    #[inline(always)]
    fn meet_parts(
        &mut self,
        known: &[u8; FRONT_LEN],
        header: &[u8; PART_LEN],
        own: &[u8; PART_LEN],
        rest: usize,
    )
        ensures fronts { self.new.fronts ≡ xor_bytes known.now (header.now ++ own.now) }
        ensures rest { self.new.rest ≡ rest }
    {
        if self.rest != rest || !parts_differ_in(known, header, own, &self.fronts) {
            self.learn_parts(known, header, own, rest);
        }
    }

    /// Works it out. A call of its own, since it is seldom.
    #[inline(never)]
    fn learn_parts(
        &mut self,
        known: &[u8; FRONT_LEN],
        header: &[u8; PART_LEN],
        own: &[u8; PART_LEN],
        rest: usize,
    )
        ensures fronts { self.new.fronts ≡ xor_bytes known.now (header.now ++ own.now) }
        ensures rest { self.new.rest ≡ rest }
    {
        let mut front = [0; FRONT_LEN];
        write_front(&mut front, header, own);
        self.learn(known, &front, rest);
    }

    /// As `check_behind`, with the known front and its check word by themselves.
    #[inline(always)]
    fn check_of(
        &mut self,
        known: &[u8; FRONT_LEN],
        check: u16,
        front: &[u8; FRONT_LEN],
        rest: &[u8],
    ) -> u16
        requires { check ≡ check_word_of (known.now ++ rest.now) }
        ensures { result ≡ check_word_of (front.now ++ rest.now) }
    {
        self.meet(known, front, rest.len());
        check ^ self.checks
    }

    /// Makes this what these two fronts differ in, with a rest of this length.
    #[inline(always)]
    fn meet(&mut self, known: &[u8; FRONT_LEN], front: &[u8; FRONT_LEN], rest: usize)
        ensures fronts { self.new.fronts ≡ xor_bytes known.now front.now }
        ensures rest { self.new.rest ≡ rest }
    {
        if self.rest != rest || !differ_in(known, front, &self.fronts) {
            self.learn(known, front, rest);
        }
    }

    /// Works it out. A call of its own, since it is seldom.
    #[inline(never)]
    fn learn(&mut self, known: &[u8; FRONT_LEN], front: &[u8; FRONT_LEN], rest: usize)
        ensures fronts { self.new.fronts ≡ xor_bytes known.now front.now }
        ensures rest { self.new.rest ≡ rest }
    {
        let power = self.power_for(rest);
        let checks = moved_past(check_word(known) ^ check_word(front), power);
        *self = FrontDifference {
            fronts: difference(known, front),
            rest,
            power,
            checks,
        };
    }

    /// The number that moves past a rest of this length.
    fn power_for(&self, rest: usize) -> u16
        ensures { ∥ IsPower rest result ∥₁ }
    {
        if rest == self.rest {
            return self.power;
        }
        power_past(rest)
    }
}

/// Whether a front differs in these bytes from another one, whose parts lie apart.
#[inline(always)]
fn parts_differ_in(
    front: &[u8; FRONT_LEN],
    header: &[u8; PART_LEN],
    own: &[u8; PART_LEN],
    bytes: &[u8; FRONT_LEN],
) -> bool
    ensures { result ≡ true → xor_bytes front.now (header.now ++ own.now) ≡ bytes.now }
{
    let (first, second) = front.split_at(PART_LEN);
    let (in_first, in_second) = bytes.split_at(PART_LEN);
    differ_in(first, header, in_first) & differ_in(second, own, in_second)
}

/// Whether as many bytes differ in these from others. It looks at all, so that the processor compares many at once.
#[inline(always)]
fn differ_in(one: &[u8], other: &[u8], bytes: &[u8]) -> bool
    requires other { length other.now ≡ length one.now }
    requires bytes { length bytes.now ≡ length one.now }
    ensures { result ≡ true → xor_bytes one.now other.now ≡ bytes.now }
{
    let mut differ = false;
    for place in 0..one.len() {
        differ |= one[place] ^ other[place] != bytes[place];
    }
    !differ
}

/// What two fronts differ in.
fn difference(one: &[u8; FRONT_LEN], other: &[u8; FRONT_LEN]) -> [u8; FRONT_LEN]
    ensures { result ≡ xor_bytes one.now other.now }
{
    let mut bytes = [0; FRONT_LEN];
    for place in 0..FRONT_LEN {
        bytes[place] = one[place] ^ other[place];
    }
    bytes
}
