//! Reading how the frames of each stream come.
ghost use Rattle.std.specs.Prelude.{◌≡◌, IfOk, IfErr, IsErrOf, None, OnErr, Option, Some};
ghost use Rattle.std.specs.Prelude.{option_map, string_bytes};
ghost use Rattle.std.specs.declared.net.ip_addr.IpAddr.{IpAddr};
ghost use Rattle.toml.specs.View.{items_view, table_view, view};
ghost use Rattle.pdc_settings.specs.Inputs.{EachSays, HasFrom, IsInput, IsNoInput, IsOneOf};
ghost use Rattle.pdc_settings.specs.Inputs.{at_key, commands_of, most_count_of, streams_in};
ghost use Rattle.pdc_settings.specs.Inputs.{tcp_of};
ghost use Rattle.pdc_settings.specs.Network.{fault_at};
ghost use Rattle.pdc_keys.specs.pdc_memory.Asking.{SomeWasRefused};
ghost use Rattle.pdc_keys.specs.Places.{IsUnread, as_place};
ghost use Rattle.pdc_keys.specs.Table.{name_of};

use crate::document::is_merger;
use crate::fault::SettingsFault;
use crate::input::Input;
use pdc_keys::{
    Unread, Wanted, ip_of, make_room, optional_number_of, place_of, value_at, values_at,
};
use std::alloc::Global;
use std::net::IpAddr;
use toml::{Table, Value};

/// The tables of the streams: the nodes' of a merger, the PMUs' of a node.
pub(crate) fn streams_of(table: &Table) -> &[Value]
    ensures { items_view result.now ≡ streams_in (table_view table.now) }
{
    let streams = if is_merger(table) {
        Wanted::Nodes
    } else {
        Wanted::Pmus
    };
    match values_at(table, streams) {
        Some(values) => values,
        None => &[],
    }
}

/// The value at a key of one of them.
fn at_key<'t>(value: &'t Value, wanted: Wanted) -> Option<&'t Value>
    ensures { option_map (λ v. view v.now) result ≡ at_key (name_of wanted) (view value.now) }
{
    match value.as_table() {
        Some(table) => value_at(table, wanted),
        None => None,
    }
}

/// The place that a value names, of a key that may be left out.
fn some_place(alloc: Global, value: &Value) -> Result<Option<String>, Unread>
    ensures value { IfOk result (λ text. option_map (λ t. Some t) (as_place (view value.now)) ≡
        Some (option_map string_bytes text)) }
    ensures fault { IfErr result (IsUnread (option_map (λ t. Some t) (as_place (view value.now)) ≡
        None)) }
    ensures refused { IsErrOf result Unread.NoMemory → SomeWasRefused }
{
    match place_of(alloc, value) {
        Ok(text) => Ok(Some(text)),
        Err(unread) => Err(unread),
    }
}

/// Where the stream of a table is asked for over TCP.
fn tcp_place(alloc: Global, value: &Value) -> Result<Option<String>, Unread>
    ensures value { IfOk result (λ text. tcp_of (view value.now) ≡
        Some (option_map string_bytes text)) }
    ensures fault { IfErr result (IsUnread (tcp_of (view value.now) ≡ None)) }
    ensures refused { IsErrOf result Unread.NoMemory → SomeWasRefused }
{
    match at_key(value, Wanted::Tcp) {
        Some(text) => some_place(alloc, text),
        None => Ok(None),
    }
}

/// Where it is asked for by UDP, which is beside the port.
fn commands_place(alloc: Global, value: &Value) -> Result<Option<String>, Unread>
    ensures value { IfOk result (λ text. commands_of (view value.now) ≡
        Some (option_map string_bytes text)) }
    ensures fault { IfErr result (IsUnread (commands_of (view value.now) ≡ None)) }
    ensures refused { IsErrOf result Unread.NoMemory → SomeWasRefused }
{
    match at_key(value, Wanted::Commands) {
        Some(text) => match at_key(value, Wanted::Tcp) {
            Some(_) => Err(Unread::NoPlace),
            None => some_place(alloc, text),
        },
        None => Ok(None),
    }
}

/// The address that its datagrams come from, which is beside the port.
fn from_of(value: &Value) -> Result<Option<IpAddr>, Wanted>
    ensures value { IfOk result (HasFrom (view value.now)) }
    ensures none { OnErr result ((from : Option IpAddr) → HasFrom (view value.now) from → ⊥) }
{
    match at_key(value, Wanted::From) {
        Some(text) => match at_key(value, Wanted::Tcp) {
            Some(_) => Err(Wanted::From),
            None => match ip_of(text) {
                Some(ip) => Ok(Some(ip)),
                None => Err(Wanted::From),
            },
        },
        None => Ok(None),
    }
}

/// The fault of a document where the text at a key was not read.
pub(crate) fn fault_of(unread: Unread, wanted: Wanted) -> SettingsFault
    ensures { result ≡ fault_at wanted unread }
{
    match unread {
        Unread::NoPlace => SettingsFault::Range(wanted),
        Unread::NoMemory => SettingsFault::NoMemory,
    }
}

/// The key `tcp` of a table.
fn tcp_of(alloc: Global, value: &Value) -> Result<Option<String>, SettingsFault>
    ensures value { IfOk result (λ text. tcp_of (view value.now) ≡
        Some (option_map string_bytes text)) }
    ensures fault { IfErr result (λ fault. IsNoInput fault (view value.now)) }
    ensures refused { IsErrOf result SettingsFault.NoMemory → SomeWasRefused }
{
    match tcp_place(alloc, value) {
        Ok(text) => Ok(text),
        Err(unread) => Err(fault_of(unread, Wanted::Tcp)),
    }
}

/// The key `commands` of a table.
fn commands_of(alloc: Global, value: &Value) -> Result<Option<String>, SettingsFault>
    ensures value { IfOk result (λ text. commands_of (view value.now) ≡
        Some (option_map string_bytes text)) }
    ensures fault { IfErr result (λ fault. IsNoInput fault (view value.now)) }
    ensures refused { IsErrOf result SettingsFault.NoMemory → SomeWasRefused }
{
    match commands_place(alloc, value) {
        Ok(text) => Ok(text),
        Err(unread) => Err(fault_of(unread, Wanted::Commands)),
    }
}

/// The key `from` of a table.
fn address_of(value: &Value) -> Result<Option<IpAddr>, SettingsFault>
    ensures value { IfOk result (HasFrom (view value.now)) }
    ensures fault { IfErr result (λ fault. IsNoInput fault (view value.now)) }
    ensures refused { IsErrOf result SettingsFault.NoMemory → SomeWasRefused }
{
    match from_of(value) {
        Ok(from) => Ok(from),
        Err(_) => Err(SettingsFault::Range(Wanted::From)),
    }
}

/// The key `most_count` of a table.
fn most_count_of(value: &Value) -> Result<Option<u16>, SettingsFault>
    ensures value { IfOk result (λ most. most_count_of (view value.now) ≡ Some most) }
    ensures fault { IfErr result (λ fault. IsNoInput fault (view value.now)) }
    ensures refused { IsErrOf result SettingsFault.NoMemory → SomeWasRefused }
{
    match optional_number_of(at_key(value, Wanted::MostCount), Wanted::MostCount) {
        Some(most) => Ok(most),
        None => Err(SettingsFault::Range(Wanted::MostCount)),
    }
}

/// What the table of a stream says of how its frames come.
pub(crate) fn read_input(alloc: Global, value: &Value) -> Result<Input, SettingsFault>
    ensures value { IfOk result (IsInput (view value.now)) }
    ensures fault { IfErr result (λ fault. IsNoInput fault (view value.now)) }
    ensures refused { IsErrOf result SettingsFault.NoMemory → SomeWasRefused }
{
    let tcp = tcp_of(alloc, value)?;
    let commands = commands_of(alloc, value)?;
    let from = address_of(value)?;
    let most_count = most_count_of(value)?;
    Ok(Input {
        tcp,
        commands,
        from,
        most_count,
    })
}

/// What the tables of the streams say of how their frames come, in their order.
pub(crate) fn read_inputs(alloc: Global, values: &[Value]) -> Result<Vec<Input>, SettingsFault>
    ensures value { IfOk result (λ inputs. EachSays IsInput (items_view values.now) inputs.items) }
    ensures fault { IfErr result (λ fault. IsOneOf (IsNoInput fault) (items_view values.now)) }
    ensures refused { IsErrOf result SettingsFault.NoMemory → SomeWasRefused }
{
    let mut inputs = Vec::new(alloc);
    for value in values {
        let input = match read_input(alloc, value) {
            Ok(input) => input,
            Err(fault) => return Err(fault),
        };
        if make_room(&mut inputs, 1).is_err() {
            return Err(SettingsFault::NoMemory);
        }
        inputs.push_reserved(input);
    }
    Ok(inputs)
}
