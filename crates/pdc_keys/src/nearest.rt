//! Which known name is nearest to one that is not known.
ghost use Rattle.std.specs.Prelude.{◌≡◌, IfOk, OnErr, option_map};
ghost use Rattle.pdc_keys.specs.Near.{edits, is_near, is_slip, nearer, nearest_of};
ghost use Rattle.pdc_keys.specs.Table.{names_in};
ghost use Rattle.pdc_keys.specs.Wanting.{EditsWanted, SomeEditsWanted};

use crate::owner::KeyTable;
use crate::wanted::Wanted;
use std::alloc::{AllocError, Global};
use strsim::osa_distance;

/// How many edits lead from one name to the other.
#[tactic(auto, unfolding(crate::specs::Wanting::EditsWanted))]
fn edits(alloc: Global, key: &str, name: &str) -> Result<usize, AllocError>
    ensures count { IfOk result (λ n. n ≡ edits key.now name.now) }
    ensures wanted { OnErr result (EditsWanted key.now name.now) }
{
    match osa_distance(alloc, key, name) {
        Ok(edits) => Ok(edits),
        Err(error) => Err(error),
    }
}

/// Whether so many edits are a slip, in a name of this length.
fn is_slip(len: usize, edits: usize) -> bool
    ensures { result ≡ is_slip len edits }
{
    edits < len && (edits <= 2 || edits <= len / 3)
}

/// Whether a name is near.
fn is_near(alloc: Global, key: &str, name: &str) -> Result<bool, AllocError>
    ensures answer { IfOk result (λ answer. answer ≡ is_near key.now name.now) }
    ensures wanted { OnErr result SomeEditsWanted }
{
    let edits = edits(alloc, key, name)?;
    Ok(is_slip(key.len(), edits))
}

/// The nearer of both.
fn nearer(
    alloc: Global,
    key: &str,
    name: &'static str,
    other: Option<&'static str>,
) -> Result<Option<&'static str>, AllocError>
    ensures nearer { IfOk result (λ found. option_map (λ n. n.now) found ≡
        nearer key.now name.now (option_map (λ n. n.now) other.entry)) }
    ensures wanted { OnErr result SomeEditsWanted }
{
    let Some(other) = other else {
        return Ok(Some(name));
    };
    let (here, there) = (edits(alloc, key, name)?, edits(alloc, key, other)?);
    if here <= there {
        Ok(Some(name))
    } else {
        Ok(Some(other))
    }
}

/// The nearest of those that are near, among the keys that are read in a table of this kind.
pub(crate) fn nearest_of(
    alloc: Global,
    key: &str,
    table: KeyTable,
    keys: &[Wanted],
) -> Result<Option<&'static str>, AllocError>
    ensures nearest { IfOk result (λ found. option_map (λ n. n.now) found ≡
        nearest_of key.now (names_in table keys.now)) }
    ensures wanted { OnErr result SomeEditsWanted }
{
    let Some((first, others)) = keys.split_first() else {
        return Ok(None);
    };
    let found = nearest_of(alloc, key, table, others)?;
    if !first.owner().stands_in(table) {
        return Ok(found);
    }
    let name = first.key();
    if is_near(alloc, key, name)? {
        nearer(alloc, key, name, found)
    } else {
        Ok(found)
    }
}
