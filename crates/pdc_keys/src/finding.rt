//! Finding the keys that nothing reads.
ghost use Rattle.std.specs.Prelude.{◌≡◌, ◌++◌, ◌∷◌, [], IfOk, OnErr, OnOk, codes, map};
ghost use Rattle.toml.specs.Data.{as_table};
ghost use Rattle.toml.specs.View.{items_view, table_view, view};
ghost use Rattle.pdc_keys.specs.Keys.{items_at};
ghost use Rattle.pdc_keys.specs.Table.{name_of, names_in};
ghost use Rattle.pdc_keys.specs.Unknown.{is_one_of, keys_in, keys_of, kind_of_pmu};
ghost use Rattle.pdc_keys.specs.Unknown.{unknown_among, unknown_fields, unknown_from, unknown_in};
ghost use Rattle.pdc_keys.specs.Unknown.{unknown_of};
ghost use Rattle.pdc_keys.specs.Wanting.{IsWantOfKeys};
ghost use Rattle.pdc_keys.specs.declared.owner.KeyTable.TheVariants.{MergedNode};
ghost use Rattle.pdc_keys.specs.declared.unknown.TableName.TheVariants.{Node, Pmu};

use crate::keys::{value_at, values_at};
use crate::nearest::nearest_of;
use crate::owner::KeyTable;
use crate::table::all_keys;
use crate::text::text_of;
use crate::unknown::{TableName, UnknownKey};
use crate::wanted::Wanted;
use pdc_memory::make_room;
use std::alloc::{AllocError, Global};
use toml::{Table, Value};

/// Whether a key is one of these, of those that are read in a table of this kind.
fn is_one_of(key: &str, table: KeyTable, keys: &[Wanted]) -> bool
    ensures { result ≡ is_one_of key.now (names_in table keys.now) }
{
    let Some((first, others)) = keys.split_first() else {
        return false;
    };
    if first.owner().stands_in(table) {
        key == first.key() || is_one_of(key, table, others)
    } else {
        is_one_of(key, table, others)
    }
}

/// A key of this table that is none of the known ones.
fn unknown_of(
    alloc: Global,
    table: TableName,
    known: KeyTable,
    keys: &[Wanted],
    key: &str,
) -> Result<UnknownKey, AllocError>
    ensures fields { IfOk result (λ found. unknown_fields found ≡
        unknown_of table (names_in known keys.now) key.now) }
    ensures wanted { OnErr result IsWantOfKeys }
{
    let nearest = nearest_of(alloc, key, known, keys)?;
    let name = text_of(alloc, key)?;
    Ok(UnknownKey {
        table,
        name,
        nearest,
    })
}

/// Adds a key, where it is none of the known ones.
fn push_key(
    alloc: Global,
    table: TableName,
    known: KeyTable,
    keys: &[Wanted],
    key: &str,
    found: &mut Vec<UnknownKey>,
) -> Result<(), AllocError>
    ensures found { OnOk result (map unknown_fields found.new.items ≡
        map unknown_fields found.old.items ++
        unknown_among table (names_in known keys.now) (key.now ∷ [])) }
    ensures wanted { OnErr result IsWantOfKeys }
{
    if is_one_of(key, known, keys) {
        return Ok(());
    }
    let unknown = unknown_of(alloc, table, known, keys, key)?;
    make_room(found, 1)?;
    found.push_reserved(unknown);
    Ok(())
}

/// Adds those of a table.
fn push_keys(
    alloc: Global,
    table: TableName,
    known: KeyTable,
    keys: &[Wanted],
    members: &Table,
    found: &mut Vec<UnknownKey>,
) -> Result<(), AllocError>
    ensures found { OnOk result (map unknown_fields found.new.items ≡
        map unknown_fields found.old.items ++
        unknown_among table (names_in known keys.now) (keys_of (table_view members.now))) }
    ensures wanted { OnErr result IsWantOfKeys }
{
    for key in members.keys() {
        push_key(alloc, table, known, keys, key.as_str(), found)?;
    }
    Ok(())
}

/// Adds those of a value, which may be no table.
fn push_value(
    alloc: Global,
    table: TableName,
    known: KeyTable,
    keys: &[Wanted],
    value: &Value,
    found: &mut Vec<UnknownKey>,
) -> Result<(), AllocError>
    ensures found { OnOk result (map unknown_fields found.new.items ≡
        map unknown_fields found.old.items ++
        unknown_among table (names_in known keys.now) (keys_in (as_table (view value.now)))) }
    ensures wanted { OnErr result IsWantOfKeys }
{
    match value.as_table() {
        Some(members) => push_keys(alloc, table, known, keys, members, found),
        None => Ok(()),
    }
}

/// Adds those of the tables of nodes.
fn push_nodes(
    alloc: Global,
    keys: &[Wanted],
    values: &[Value],
    found: &mut Vec<UnknownKey>,
) -> Result<(), AllocError>
    ensures found { OnOk result (map unknown_fields found.new.items ≡
        map unknown_fields found.old.items ++
        unknown_from Node (names_in MergedNode keys.now) 1 (items_view values.now)) }
    ensures wanted { OnErr result IsWantOfKeys }
{
    for at in 0..values.len() {
        let table = TableName::Node(at + 1);
        push_value(alloc, table, KeyTable::MergedNode, keys, &values[at], found)?;
    }
    Ok(())
}

/// Adds those of the tables of PMUs.
fn push_pmus(
    alloc: Global,
    known: KeyTable,
    keys: &[Wanted],
    values: &[Value],
    found: &mut Vec<UnknownKey>,
) -> Result<(), AllocError>
    ensures found { OnOk result (map unknown_fields found.new.items ≡
        map unknown_fields found.old.items ++
        unknown_from Pmu (names_in known keys.now) 1 (items_view values.now)) }
    ensures wanted { OnErr result IsWantOfKeys }
{
    for at in 0..values.len() {
        let table = TableName::Pmu(at + 1);
        push_value(alloc, table, known, keys, &values[at], found)?;
    }
    Ok(())
}

/// Which keys a PMU has in these settings.
fn kind_of_pmu(table: &Table) -> KeyTable
    ensures { result ≡ kind_of_pmu (table_view table.now) }
{
    match value_at(table, Wanted::Nodes) {
        Some(_) => KeyTable::MergedPmu,
        None => KeyTable::NodePmu,
    }
}

/// The values of a list, none where it is left out or no list.
fn listed<'t>(table: &'t Table, wanted: Wanted) -> &'t [Value]
    ensures { items_view result.now ≡ items_at (name_of wanted) (table_view table.now) }
{
    match values_at(table, wanted) {
        Some(values) => values,
        None => &[],
    }
}

/// The tables of the nodes,
fn nodes_of(table: &Table) -> &[Value]
    ensures { items_view result.now ≡ items_at (codes "node") (table_view table.now) }
{
    listed(table, Wanted::Nodes)
}

/// and those of the PMUs.
fn pmus_of(table: &Table) -> &[Value]
    ensures { items_view result.now ≡ items_at (codes "pmu") (table_view table.now) }
{
    listed(table, Wanted::Pmus)
}

/// The keys of a document that nothing reads: those at the top, then those of the nodes' tables, then those of the PMUs'. In each table
/// they are in the order of their letters.
///
/// # Errors
///
/// A request for memory was refused, or `strsim` answered so.
pub fn unknown_keys_in(alloc: Global, table: &Table) -> Result<Vec<UnknownKey>, AllocError>
    ensures found { IfOk result (λ found. map unknown_fields found.items ≡
        unknown_in (table_view table.now)) }
    ensures wanted { OnErr result IsWantOfKeys }
{
    let mut found = Vec::new(alloc);
    let keys = all_keys();
    push_keys(
        alloc,
        TableName::Top,
        KeyTable::Top,
        keys,
        table,
        &mut found,
    )?;
    push_nodes(alloc, keys, nodes_of(table), &mut found)?;
    push_pmus(alloc, kind_of_pmu(table), keys, pmus_of(table), &mut found)?;
    Ok(found)
}
