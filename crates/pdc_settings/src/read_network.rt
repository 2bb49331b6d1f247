//! Reading where a concentrator is on the network.
ghost use Rattle.std.specs.Prelude.{◌≡◌, ◌≤◌, IfOk, IfErr, IfSome, IsErrOf, None, OnErr, Some};
ghost use Rattle.std.specs.Prelude.{codes, map, nat_le, option_and_then, option_map, length};
ghost use Rattle.std.specs.Prelude.{string_bytes};
ghost use Rattle.std.specs.declared.net.ip_addr.IpAddr.{IpAddr};
ghost use Rattle.toml.specs.Data.{as_array, get_member};
ghost use Rattle.toml.specs.View.{items_view, table_view, view};
ghost use Rattle.pdc_settings.specs.Document.{members_of};
ghost use Rattle.pdc_settings.specs.Entries.{each_of};
ghost use Rattle.pdc_settings.specs.Inputs.{EachSays, IsInput, streams_in};
ghost use Rattle.pdc_settings.specs.Network.{IsAddress, IsKeyFault, IsNetwork, IsNetworkFault};
ghost use Rattle.pdc_settings.specs.Network.{few_outputs, fault_of, metrics_port_in, outputs_of};
ghost use Rattle.pdc_settings.specs.Network.{receive_buffer_in, sessions_in, ttl_in};
ghost use Rattle.pdc_keys.specs.pdc_memory.Asking.{SomeWasRefused};
ghost use Rattle.pdc_keys.specs.Places.{IsUnread, as_place};
ghost use Rattle.pdc_settings.specs.Limits.{MAX_OUTPUTS};
ghost use Rattle.pdc_settings.specs.Said.{SaysNetwork};
ghost use Rattle.pdc_settings.specs.Settings.{IsFaultOf};
ghost use Rattle.pdc_settings.specs.Wanting.{IsWant};

use crate::document::Document;
use crate::fault::SettingsFault;
use crate::input::Input;
use crate::network::Network;
use crate::read_inputs::{fault_of, read_inputs, streams_of};
use pdc_keys::{Unread, Wanted, ip_of, make_room, number_or, optional_number, place_of, value_at};
use std::alloc::Global;
use std::net::IpAddr;
use toml::{Table, Value};

/// The address at the key `address`.
fn address(table: &Table) -> Result<IpAddr, Wanted>
    ensures value { IfOk result (IsAddress (get_member (codes "address") (table_view table.now))) }
    ensures none { OnErr result ((ip : IpAddr) →
        IsAddress (get_member (codes "address") (table_view table.now)) ip → ⊥) }
    ensures wanted { IfErr result (λ w. w ≡ Wanted.Address) }
{
    match value_at(table, Wanted::Address) {
        Some(value) => ip_of(value).ok_or(Wanted::Address),
        None => Ok(Wanted::Address.usual_address()),
    }
}

/// The places that values name, in their order.
fn texts_of(alloc: Global, values: &[Value]) -> Result<Vec<String>, Unread>
    ensures value { IfOk result (λ texts. each_of as_place (items_view values.now) ≡
        Some (map string_bytes texts.items)) }
    ensures fault { IfErr result (IsUnread (each_of as_place (items_view values.now) ≡ None)) }
    ensures refused { IsErrOf result Unread.NoMemory → SomeWasRefused }
{
    let mut texts = Vec::new(alloc);
    for value in values {
        let text = match place_of(alloc, value) {
            Ok(text) => text,
            Err(unread) => return Err(unread),
        };
        if make_room(&mut texts, 1).is_err() {
            return Err(Unread::NoMemory);
        }
        texts.push_reserved(text);
    }
    Ok(texts)
}

/// Whether there are at most 8 of them.
fn are_few(values: &[Value]) -> bool
    ensures { result ≡ nat_le (length values.now) MAX_OUTPUTS }
{
    values.len() as u64 <= Wanted::Outputs.most()
}

/// The values of a list.
fn values_of(value: &Value) -> Option<&[Value]>
    ensures { option_map (λ v. items_view v.now) result ≡ as_array (view value.now) }
{
    match value.as_array() {
        Some(list) => Some(list.as_slice()),
        None => None,
    }
}

/// The places of a list, at most 8.
fn few_texts(alloc: Global, value: &Value) -> Result<Vec<String>, Unread>
    ensures value { IfOk result (λ texts. option_and_then few_outputs (as_array (view value.now)) ≡
        Some (map string_bytes texts.items)) }
    ensures fault { IfErr result (IsUnread (option_and_then few_outputs (as_array (view value.now))
        ≡ None)) }
    ensures refused { IsErrOf result Unread.NoMemory → SomeWasRefused }
{
    let Some(values) = values_of(value) else {
        return Err(Unread::NoPlace);
    };
    if !are_few(values) {
        return Err(Unread::NoPlace);
    }
    let texts = texts_of(alloc, values)?;
    Ok(texts)
}

/// The destinations at the key `outputs`.
fn outputs(alloc: Global, table: &Table) -> Result<Vec<String>, Unread>
    ensures value { IfOk result (λ texts. outputs_of
        (get_member (codes "outputs") (table_view table.now)) ≡
        Some (map string_bytes texts.items)) }
    ensures fault { IfErr result (IsUnread (outputs_of
        (get_member (codes "outputs") (table_view table.now)) ≡ None)) }
    ensures refused { IsErrOf result Unread.NoMemory → SomeWasRefused }
{
    match value_at(table, Wanted::Outputs) {
        Some(value) => few_texts(alloc, value),
        None => Ok(Vec::new(alloc)),
    }
}

/// The fault of a document whose destinations were not read.
fn outputs_fault(unread: Unread) -> SettingsFault
    ensures { result ≡ fault_of unread }
{
    fault_of(unread, Wanted::Outputs)
}

/// What the keys of a document say of the network, beside how the frames of each stream come.
fn read_keys(alloc: Global, table: &Table, inputs: Vec<Input>) -> Result<Network, SettingsFault>
    requires inputs { EachSays IsInput (streams_in (table_view table.now)) inputs.items }
    ensures value { IfOk result (IsNetwork (table_view table.now)) }
    ensures fault { IfErr result (IsKeyFault (table_view table.now)) }
    ensures refused { IsErrOf result SettingsFault.NoMemory → SomeWasRefused }
{
    let address = address(table).map_err(SettingsFault::Range)?;
    let outputs = outputs(alloc, table).map_err(outputs_fault)?;
    let Some(ttl) = number_or(table, Wanted::Ttl) else {
        return Err(SettingsFault::Range(Wanted::Ttl));
    };
    let Some(receive_buffer) = number_or(table, Wanted::ReceiveBuffer) else {
        return Err(SettingsFault::Range(Wanted::ReceiveBuffer));
    };
    let Some(sessions) = number_or(table, Wanted::Sessions) else {
        return Err(SettingsFault::Range(Wanted::Sessions));
    };
    let Some(metrics_port) = optional_number(table, Wanted::MetricsPort) else {
        return Err(SettingsFault::Range(Wanted::MetricsPort));
    };
    Ok(Network {
        address,
        outputs,
        ttl: ttl as u8,
        receive_buffer: receive_buffer as u32,
        sessions: sessions as u8,
        metrics_port,
        inputs,
    })
}

/// What a document says of the network.
fn read_network(alloc: Global, table: &Table) -> Result<Network, SettingsFault>
    ensures value { IfOk result (IsNetwork (table_view table.now)) }
    ensures fault { IfErr result (IsNetworkFault (table_view table.now)) }
    ensures refused { IsErrOf result SettingsFault.NoMemory → SomeWasRefused }
{
    let inputs = match read_inputs(alloc, streams_of(table)) {
        Ok(inputs) => inputs,
        Err(fault) => return Err(fault),
    };
    match read_keys(alloc, table, inputs) {
        Ok(network) => Ok(network),
        Err(fault) => Err(fault),
    }
}

impl Network {
    /// Reads where a concentrator is on the network out of its settings.
    ///
    /// # Errors
    ///
    /// `Toml` where the text is no TOML; else `Range`, with the key, where the value at one is of another type or out of its range;
    /// `NoMemory` where `toml` answered that memory was wanted, or a request was refused.
    pub fn from_toml(alloc: Global, text: &str) -> Result<Network, SettingsFault>
        ensures value { IfOk result (SaysNetwork text.now) }
        ensures fault { IfErr result (IsFaultOf IsNetworkFault text.now) }
        ensures wanted { IsErrOf result SettingsFault.NoMemory → IsWant text.now }
    {
        let document = Document::parse(alloc, text)?;
        Network::from_document(alloc, &document)
    }

    /// Reads where a concentrator is on the network out of a document of settings.
    ///
    /// # Errors
    ///
    /// `Range`, with the key, where the value at one is of another type or out of its range; `NoMemory` where a request for memory was
    /// refused.
    pub fn from_document(alloc: Global, document: &Document) -> Result<Network, SettingsFault>
        ensures value { IfOk result (IsNetwork (members_of document.now)) }
        ensures fault { IfErr result (IsNetworkFault (members_of document.now)) }
        ensures refused { IsErrOf result SettingsFault.NoMemory → SomeWasRefused }
    {
        read_network(alloc, &document.table)
    }
}
