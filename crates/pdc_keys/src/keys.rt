//! The values at the keys of a settings text.
ghost use Rattle.std.specs.Prelude.{◌≡◌, ◌≤◌, IfSome, IfOk, None, OnErr, Some, ok_or};
ghost use Rattle.std.specs.Prelude.{option_and_then, option_map};
ghost use Rattle.toml.specs.Data.{as_array, get_member};
ghost use Rattle.toml.specs.View.{items_view, table_view, view};
ghost use Rattle.pdc_keys.specs.Keys.{in_range, number_at, number_in, number_or, optional_number};
ghost use Rattle.pdc_keys.specs.Table.{least_of, most_of, name_of, usual_of};

use crate::wanted::Wanted;
use toml::{Table, Value};

/// The value of a key in a table.
pub fn value_at<'t>(table: &'t Table, wanted: Wanted) -> Option<&'t Value>
    ensures { option_map (λ v. view v.now) result ≡
        get_member (name_of wanted) (table_view table.now) }
{
    let name = wanted.key();
    table.get(name)
}

/// The values of the list of a key in a table.
pub fn values_at<'t>(table: &'t Table, wanted: Wanted) -> Option<&'t [Value]>
    ensures { option_map (λ v. items_view v.now) result ≡
        option_and_then as_array (get_member (name_of wanted) (table_view table.now)) }
{
    match value_at(table, wanted) {
        Some(value) => match value.as_array() {
            Some(list) => Some(list.as_slice()),
            None => None,
        },
        None => None,
    }
}

fn within(n: i64, least: u64, most: u64) -> Option<u64>
    ensures { result ≡ in_range least most n }
{
    let n = u64::try_from(n).ok()?;
    if n < least || n > most {
        return None;
    }
    Some(n)
}

fn number_in(value: &Value, least: u64, most: u64) -> Option<u64>
    ensures { result ≡ number_in least most (Some (view value.now)) }
{
    match value.as_integer() {
        Some(n) => within(n, least, most),
        None => None,
    }
}

fn number_at(table: &Table, wanted: Wanted, least: u64, most: u64) -> Option<u64>
    ensures value { result ≡ number_at (name_of wanted) least most (table_view table.now) }
    ensures low { IfSome result (λ n. least ≤ n) }
    ensures high { IfSome result (λ n. n ≤ most) }
{
    match value_at(table, wanted) {
        Some(value) => number_in(value, least, most),
        None => None,
    }
}

/// The number that the value of a key is, where it is an integer of the key's range.
pub fn number_of(value: &Value, wanted: Wanted) -> Option<u64>
    ensures { result ≡ number_in (least_of wanted) (most_of wanted) (Some (view value.now)) }
{
    number_in(value, wanted.least(), wanted.most())
}

/// The number at a key that must stand, from `least` to the most of the key.
pub fn number_from(table: &Table, wanted: Wanted, least: u64) -> Result<u64, Wanted>
    ensures value { result ≡ ok_or (number_at (name_of wanted) least (most_of wanted)
        (table_view table.now)) wanted }
    ensures some { IfOk result (λ n. number_at (name_of wanted) least (most_of wanted)
        (table_view table.now) ≡ Some n) }
    ensures none { OnErr result (number_at (name_of wanted) least (most_of wanted)
        (table_view table.now) ≡ None) }
    ensures low { IfOk result (λ n. least ≤ n) }
    ensures high { IfOk result (λ n. n ≤ most_of wanted) }
{
    match number_at(table, wanted, least, wanted.most()) {
        Some(n) => Ok(n),
        None => Err(wanted),
    }
}

/// The number at a key that must stand, in the key's range.
pub fn number(table: &Table, wanted: Wanted) -> Result<u64, Wanted>
    ensures value { result ≡ ok_or (number_at (name_of wanted) (least_of wanted) (most_of wanted)
        (table_view table.now)) wanted }
    ensures some { IfOk result (λ n. number_at (name_of wanted) (least_of wanted) (most_of wanted)
        (table_view table.now) ≡ Some n) }
    ensures none { OnErr result (number_at (name_of wanted) (least_of wanted) (most_of wanted)
        (table_view table.now) ≡ None) }
    ensures low { IfOk result (λ n. least_of wanted ≤ n) }
    ensures high { IfOk result (λ n. n ≤ most_of wanted) }
{
    number_from(table, wanted, wanted.least())
}

/// The number at a key that may be left out, in the key's range: the usual one then.
pub fn number_or(table: &Table, wanted: Wanted) -> Option<u64>
    requires low { least_of wanted ≤ usual_of wanted }
    requires high { usual_of wanted ≤ most_of wanted }
    ensures value { result ≡ number_or (usual_of wanted) (least_of wanted) (most_of wanted)
        (get_member (name_of wanted) (table_view table.now)) }
    ensures low { IfSome result (λ n. least_of wanted ≤ n) }
    ensures high { IfSome result (λ n. n ≤ most_of wanted) }
{
    match value_at(table, wanted) {
        Some(value) => number_of(value, wanted),
        None => Some(wanted.usual()),
    }
}

/// The number of a value that may be left out, from `least` to `most`: none then.
fn optional_in(value: Option<&Value>, least: u64, most: u64) -> Option<Option<u16>>
    requires { most ≤ 65535 }
    ensures { result ≡ optional_number least most (option_map (λ v. view v.now) value.entry) }
{
    match value {
        Some(value) => match number_in(value, least, most) {
            Some(number) => Some(Some(number as u16)),
            None => None,
        },
        None => Some(None),
    }
}

/// The number of the value of a key that may be left out, in the key's range: none then.
pub fn optional_number_of(value: Option<&Value>, wanted: Wanted) -> Option<Option<u16>>
    requires { most_of wanted ≤ 65535 }
    ensures { result ≡ optional_number (least_of wanted) (most_of wanted)
        (option_map (λ v. view v.now) value.entry) }
{
    optional_in(value, wanted.least(), wanted.most())
}

/// The number at a key that may be left out, from the least of the key to `most`: none then.
pub fn optional_number_to(table: &Table, wanted: Wanted, most: u16) -> Option<Option<u16>>
    ensures { result ≡ optional_number (least_of wanted) most
        (get_member (name_of wanted) (table_view table.now)) }
{
    optional_in(value_at(table, wanted), wanted.least(), u64::from(most))
}

/// The number at a key that may be left out, in the key's range: none then.
pub fn optional_number(table: &Table, wanted: Wanted) -> Option<Option<u16>>
    requires { most_of wanted ≤ 65535 }
    ensures { result ≡ optional_number (least_of wanted) (most_of wanted)
        (get_member (name_of wanted) (table_view table.now)) }
{
    optional_number_of(value_at(table, wanted), wanted)
}
