//! What the table says of a key.
ghost use Rattle.std.specs.Prelude.{◌≡◌};
ghost use Rattle.std.specs.Net.Addr.{IsV4And, ipv4_octets};
ghost use Rattle.pdc_keys.specs.Table.{choice_of, least_in, most_in, octets_in, text_in, usual_in};
ghost use Rattle.pdc_keys.specs.Table.{words_in};

use crate::owner::Owner;
use std::fmt;
use std::fmt::{Display, Formatter};
use std::net::IpAddr;

/// What must stand at a key.
#[derive(Clone, Copy, Debug)]
pub enum Values {
    /// A whole number from the first to the second.
    Number(u64, u64),
    /// A whole number from the rate to this one.
    FromRate(u64),
    /// One of two whole numbers.
    Either(u64, u64),
    /// One of two words.
    Words(&'static str, &'static str),
    /// Whole milliseconds from the first, fewer than a frame lasts: at most the second, where a frame lasts a second.
    WithinFrame(u64, u64),
    /// As many tables.
    Tables(u64, u64),
    /// Two tables, one for each node.
    TwoTables,
    /// Nothing may.
    Nothing,
    /// An address, as this one.
    Address(&'static str),
    /// An address beside `port`, as this one.
    AddressBeside(&'static str),
    /// At most so many places.
    Places(u64),
    /// A place in place of `port`.
    PlaceInstead,
    /// A place beside `port`.
    PlaceBeside,
}

/// One of the two words that may stand at a key.
#[derive(Clone, Copy, Debug)]
pub enum Choice {
    First,
    Second,
}

/// What holds where a key is left out.
#[derive(Clone, Copy, Debug)]
pub enum Usual {
    /// It must stand.
    Must,
    /// It must stand, unless the key of this name does.
    Unless(&'static str),
    /// At a node it is as the key of this name; it must stand at the merger.
    AtNode(&'static str),
    /// It must stand at the merger, and may not at a node.
    AtMerger,
    /// It is this number,
    Is(u64),
    /// this text,
    Text(&'static str),
    /// the address of these four,
    Octets(u8, u8, u8, u8),
    /// or as these words say.
    Said(&'static str),
}

/// What the table says of a key: its line. It prints as its paragraph of the help.
#[derive(Clone, Copy, Debug)]
pub struct Key {
    /// Its name in a file.
    pub name: &'static str,
    /// Whose it is.
    pub owner: Owner,
    /// What must stand there.
    pub values: Values,
    /// What holds where it is left out.
    pub usual: Usual,
    /// What it sets.
    pub text: &'static str,
}

/// What a refusal says must stand at a key.
#[derive(Clone, Copy, Debug)]
pub struct Range {
    values: Values,
    usual: Usual,
}

impl Key {
    /// What a refusal says must stand there.
    pub fn range(self) -> Range {
        Range {
            values: self.values,
            usual: self.usual,
        }
    }
}

impl Values {
    /// The least number that may stand there, or the fewest items; 1 of those that begin at the rate.
    pub(crate) fn least(self) -> u64
        ensures { result ≡ least_in self }
    {
        match self {
            Values::Number(least, _)
            | Values::Either(least, _)
            | Values::WithinFrame(least, _)
            | Values::Tables(least, _) => least,
            Values::FromRate(_) => 1,
            Values::TwoTables => 2,
            Values::Words(..)
            | Values::Nothing
            | Values::Address(_)
            | Values::AddressBeside(_)
            | Values::Places(_)
            | Values::PlaceInstead
            | Values::PlaceBeside => 0,
        }
    }

    /// The greatest number that may stand there, or the most items.
    pub(crate) fn most(self) -> u64
        ensures { result ≡ most_in self }
    {
        match self {
            Values::Number(_, most)
            | Values::Either(_, most)
            | Values::WithinFrame(_, most)
            | Values::Tables(_, most)
            | Values::FromRate(most)
            | Values::Places(most) => most,
            Values::TwoTables => 2,
            Values::Words(..)
            | Values::Nothing
            | Values::Address(_)
            | Values::AddressBeside(_)
            | Values::PlaceInstead
            | Values::PlaceBeside => 0,
        }
    }
}

impl Values {
    /// Which of two words a text is; none where no words may stand there.
    pub(crate) fn choice(self, text: &str) -> Option<Choice>
        ensures { result ≡ choice_of (words_in self) text.now }
    {
        match self {
            Values::Words(one, other) => {
                if text == one {
                    Some(Choice::First)
                } else if text == other {
                    Some(Choice::Second)
                } else {
                    None
                }
            }
            Values::Number(..)
            | Values::FromRate(_)
            | Values::Either(..)
            | Values::WithinFrame(..)
            | Values::Tables(..)
            | Values::TwoTables
            | Values::Nothing
            | Values::Address(_)
            | Values::AddressBeside(_)
            | Values::Places(_)
            | Values::PlaceInstead
            | Values::PlaceBeside => None,
        }
    }
}

impl Usual {
    /// The number that it is; 0 where it is none.
    pub(crate) fn number(self) -> u64
        ensures { result ≡ usual_in self }
    {
        match self {
            Usual::Is(number) => number,
            Usual::Must
            | Usual::Unless(_)
            | Usual::AtNode(_)
            | Usual::AtMerger
            | Usual::Text(_)
            | Usual::Octets(..)
            | Usual::Said(_) => 0,
        }
    }

    /// The text that it is; an empty one where it is none.
    pub(crate) fn text(self) -> &'static str
        ensures { result.now ≡ text_in self }
    {
        match self {
            Usual::Text(text) => text,
            Usual::Must
            | Usual::Unless(_)
            | Usual::AtNode(_)
            | Usual::AtMerger
            | Usual::Is(_)
            | Usual::Octets(..)
            | Usual::Said(_) => "",
        }
    }

    /// The address that it is; 0.0.0.0 where it is none.
    pub(crate) fn address(self) -> IpAddr
        ensures { IsV4And result (λ v4. ipv4_octets v4 ≡ octets_in self) }
    {
        match self {
            Usual::Octets(a, b, c, d) => IpAddr::from([a, b, c, d]),
            Usual::Must
            | Usual::Unless(_)
            | Usual::AtNode(_)
            | Usual::AtMerger
            | Usual::Is(_)
            | Usual::Text(_)
            | Usual::Said(_) => IpAddr::from([0u8, 0, 0, 0]),
        }
    }

    /// Whether the key must stand somewhere, and nothing holds in its place.
    fn is_must(self) -> bool {
        match self {
            Usual::Must | Usual::Unless(_) | Usual::AtMerger => true,
            Usual::AtNode(_) | Usual::Is(_) | Usual::Text(_) | Usual::Octets(..) | Usual::Said(_) =>
                false,
        }
    }

    /// Whether the key may be left out, everywhere.
    fn may_lack(self) -> bool {
        match self {
            Usual::Is(_) | Usual::Text(_) | Usual::Octets(..) | Usual::Said(_) => true,
            Usual::Must | Usual::Unless(_) | Usual::AtNode(_) | Usual::AtMerger => false,
        }
    }
}

// What docs/make_settings reads of these two: an arm of the `match` is a line.
impl Display for Values {
    fn fmt<W: fmt::Write>(&self, f: &mut Formatter<W>) -> fmt::Result {
        match self {
            Values::Number(least, most) => write!(f, "a whole number from {least} to {most}"),
            Values::FromRate(most) => write!(f, "a whole number from the rate to {most}"),
            Values::Either(one, other) => write!(f, "{one} or {other}"),
            Values::Words(one, other) => write!(f, "\"{one}\" or \"{other}\""),
            Values::WithinFrame(least, _) => write!(
                f,
                "a whole number of milliseconds from {least}, below a frame's length"
            ),
            Values::Tables(least, most) => write!(f, "{least} to {most} tables"),
            Values::TwoTables => f.write_str("two tables, node A and then node B"),
            Values::Nothing => f.write_str("left out in the settings of a node"),
            Values::Address(one) => write!(f, "an IP address, as \"{one}\""),
            Values::AddressBeside(one) => write!(f, "an IP address beside port, as \"{one}\""),
            Values::Places(most) => write!(f, "at most {most} places HOST:PORT"),
            Values::PlaceInstead => f.write_str("a place HOST:PORT in place of port"),
            Values::PlaceBeside => f.write_str("a place HOST:PORT beside port"),
        }
    }
}

impl Display for Usual {
    fn fmt<W: fmt::Write>(&self, f: &mut Formatter<W>) -> fmt::Result {
        match self {
            Usual::Must => f.write_str("must be there"),
            Usual::Unless(other) => write!(f, "must be there, unless {other} is"),
            Usual::AtNode(other) => write!(f, "at a node, {other}"),
            Usual::AtMerger => f.write_str("must be there at the merger"),
            Usual::Is(number) => write!(f, "{number}"),
            Usual::Text(text) => write!(f, "\"{text}\""),
            Usual::Octets(a, b, c, d) => write!(f, "\"{a}.{b}.{c}.{d}\""),
            Usual::Said(words) => f.write_str(words),
        }
    }
}

impl Display for Key {
    fn fmt<W: fmt::Write>(&self, f: &mut Formatter<W>) -> fmt::Result {
        let (name, table, values) = (self.name, self.owner.table(), self.values);
        writeln!(f, "{name}{table}: {values}")?;
        let (usual, text) = (self.usual, self.text);
        if usual.is_must() {
            writeln!(f, "    {usual}")?;
        } else {
            writeln!(f, "    left out: {usual}")?;
        }
        write!(f, "    {text}")
    }
}

impl Display for Range {
    fn fmt<W: fmt::Write>(&self, f: &mut Formatter<W>) -> fmt::Result {
        self.values.fmt(f)?;
        if self.usual.may_lack() {
            f.write_str(", or left out")?;
        }
        Ok(())
    }
}
