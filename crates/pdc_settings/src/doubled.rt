//! Numbers of settings that are the same and must differ.
ghost use Rattle.std.specs.Prelude.{◌≡◌, ◌==◌, is_some, map, not};
ghost use Rattle.std.specs.List.{list_any};
ghost use Rattle.pdc_life.specs.Distinct.{are_distinct};
ghost use Rattle.pdc_settings.specs.Doubled.{doubled_in, pair_of, same_as};
ghost use Rattle.pdc_settings.specs.declared.doubled.Numbered.{Numbered as NumberedData};

use pdc_keys::TableName;
use std::fmt;
use std::fmt::{Display, Formatter};

/// A key at which a number stands.
#[derive(Clone, Copy, Debug, PartialEq, Eq)]
pub enum NumberKey {
    /// `id` in front of all tables.
    Id,
    /// `id` in a table.
    IdOf(TableName),
    /// `stream` in a table.
    StreamOf(TableName),
    /// `source` in a table, or `stream` where that is left out.
    SourceOf(TableName),
    /// `port` in a table.
    PortOf(TableName),
}

/// A number, and the key at which it stands.
#[derive(Clone, Copy, Debug, PartialEq, Eq)]
pub(crate) struct Numbered {
    pub key: NumberKey,
    pub number: u16,
}

/// Two keys at which the same number stands, and that must differ. It prints as `stream of pmu 1 and stream of pmu 3: both are 143, and must
/// differ`.
#[derive(Clone, Copy, Debug, PartialEq, Eq)]
pub struct Doubled {
    /// The key that comes first.
    pub first: NumberKey,
    /// The other key.
    pub second: NumberKey,
    /// The number of both.
    pub number: u16,
}

impl Display for NumberKey {
    fn fmt<W: fmt::Write>(&self, f: &mut Formatter<W>) -> fmt::Result {
        match self {
            NumberKey::Id => f.write_str("id"),
            NumberKey::IdOf(table) => write!(f, "id of {table}"),
            NumberKey::StreamOf(table) => write!(f, "stream of {table}"),
            NumberKey::SourceOf(table) => write!(f, "source of {table}"),
            NumberKey::PortOf(table) => write!(f, "port of {table}"),
        }
    }
}

impl Display for Doubled {
    fn fmt<W: fmt::Write>(&self, f: &mut Formatter<W>) -> fmt::Result {
        let (first, second, number) = (self.first, self.second, self.number);
        write!(
            f,
            "{first} and {second}: both are {number}, and must differ"
        )
    }
}

fn pair_of(one: Numbered, other: Numbered) -> Doubled
    ensures { result ≡ pair_of one other }
{
    Doubled {
        first: one.key,
        second: other.key,
        number: one.number,
    }
}

/// The one with the first of the others that has the same number.
fn same_as(one: Numbered, others: &[Numbered]) -> Option<Doubled>
    ensures pair { result ≡ same_as one others.now }
    ensures some { is_some result ≡
        list_any (λ number. number == one.number) (map (λ (n : NumberedData). n.number) others.now) }
{
    match others.split_first() {
        Some((other, more)) => {
            if other.number == one.number {
                Some(pair_of(one, *other))
            } else {
                same_as(one, more)
            }
        }
        None => None,
    }
}

/// The first two that have the same number: there are such exactly where not all are distinct.
pub(crate) fn doubled_in(numbers: &[Numbered]) -> Option<Doubled>
    ensures pair { result ≡ doubled_in numbers.now }
    ensures some { is_some result ≡
        not (are_distinct (map (λ (n : NumberedData). n.number) numbers.now)) }
{
    match numbers.split_first() {
        Some((one, others)) => match same_as(*one, others) {
            Some(doubled) => Some(doubled),
            None => doubled_in(others),
        },
        None => None,
    }
}
