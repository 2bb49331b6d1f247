//! What a node and the merger are told alike.
ghost use Rattle.std.specs.Prelude.{◌≡◌, ◌≤◌, IfOk, None, OnErr, OnOk, Some, false, true};
ghost use Rattle.toml.specs.View.{table_view};
ghost use Rattle.pdc_settings.specs.Common.{IsOutput, IsService, IsTiming, has_common};
ghost use Rattle.pdc_settings.specs.Common.{has_output, has_service, has_timing, nominal_in};
ghost use Rattle.pdc_settings.specs.Common.{nominal_of, rate_in, tick_in, tick_ms_in, tick_ms_of};
ghost use Rattle.pdc_settings.specs.Common.{tick_named, wait_kind_in, wait_kind_named};
ghost use Rattle.pdc_settings.specs.Settings.{IsCommon};

use crate::service::{Service, TickWhen};
use pdc_frame::StreamId;
use pdc_keys::{Choice, Wanted, number, number_from, number_or, optional_number_to, value_at};
use pdc_life::{Timing, WaitKind};
use pdc_row::{Nominal, Output};
use toml::Table;

fn nominal_of(hertz: u64) -> Option<Nominal>
    ensures { result ≡ nominal_of hertz }
{
    match hertz {
        50 => Some(Nominal::Hz50),
        60 => Some(Nominal::Hz60),
        _ => None,
    }
}

fn nominal(table: &Table) -> Result<Nominal, Wanted>
    ensures some { IfOk result (λ n. nominal_in (table_view table.now) ≡ Some n) }
    ensures none { OnErr result (nominal_in (table_view table.now) ≡ None) }
{
    let hertz = number(table, Wanted::Nominal)?;
    match nominal_of(hertz) {
        Some(nominal) => Ok(nominal),
        None => Err(Wanted::Nominal),
    }
}

fn wait_kind_named(name: &str) -> Option<WaitKind>
    ensures { result ≡ wait_kind_named name.now }
{
    match Wanted::WaitKind.choice(name) {
        Some(Choice::First) => Some(WaitKind::Relative),
        Some(Choice::Second) => Some(WaitKind::Absolute),
        None => None,
    }
}

/// What the wait is counted in: the usual kind where the key is left out.
fn wait_kind(table: &Table) -> Option<WaitKind>
    ensures { result ≡ wait_kind_in (table_view table.now) }
{
    match value_at(table, Wanted::WaitKind) {
        Some(value) => match value.as_str() {
            Some(name) => wait_kind_named(name),
            None => None,
        },
        None => wait_kind_named(Wanted::WaitKind.usual_text()),
    }
}

/// What the frames say that it publishes.
fn output(table: &Table) -> Result<Output, Wanted>
    ensures value { IfOk result (IsOutput (table_view table.now)) }
    ensures some { OnOk result (has_output (table_view table.now) ≡ true) }
    ensures none { OnErr result (has_output (table_view table.now) ≡ false) }
{
    let id = number(table, Wanted::Id)?;
    let rate = number(table, Wanted::Rate)?;
    let nominal = nominal(table)?;
    let time_base = number_from(table, Wanted::TimeBase, rate)?;
    Ok(Output {
        id: StreamId { value: id as u16 },
        rate: rate as u16,
        nominal,
        time_base: time_base as u32,
    })
}

/// How long instants are held.
fn timing(table: &Table) -> Result<Timing, Wanted>
    ensures value { IfOk result (IsTiming (table_view table.now)) }
    ensures some { OnOk result (has_timing (table_view table.now) ≡ true) }
    ensures none { OnErr result (has_timing (table_view table.now) ≡ false) }
{
    let wait = number(table, Wanted::Wait)?;
    let Some(wait_kind) = wait_kind(table) else {
        return Err(Wanted::WaitKind);
    };
    let window = number(table, Wanted::Window)?;
    let ahead = number(table, Wanted::Ahead)?;
    Ok(Timing {
        wait,
        wait_kind,
        window,
        ahead,
    })
}

fn tick_named(name: &str) -> Option<TickWhen>
    ensures { result ≡ tick_named name.now }
{
    match Wanted::Tick.choice(name) {
        Some(Choice::First) => Some(TickWhen::Period),
        Some(Choice::Second) => Some(TickWhen::Whole),
        None => None,
    }
}

/// When it ticks: as is usual where the key is left out.
fn tick(table: &Table) -> Option<TickWhen>
    ensures { result ≡ tick_in (table_view table.now) }
{
    match value_at(table, Wanted::Tick) {
        Some(value) => match value.as_str() {
            Some(name) => tick_named(name),
            None => None,
        },
        None => tick_named(Wanted::Tick.usual_text()),
    }
}

/// How many milliseconds behind each instant it ticks, fewer than a frame lasts; none where the key is left out.
fn tick_ms(table: &Table, rate: u16) -> Option<Option<u16>>
    requires { 1 ≤ rate }
    ensures { result ≡ tick_ms_of rate (table_view table.now) }
{
    let most = Wanted::TickMs.most() as u16 / rate;
    optional_number_to(table, Wanted::TickMs, most)
}

/// What the running program does with the rows and frames, of which it publishes so many in a second.
fn service(table: &Table, rate: u16) -> Result<Service, Wanted>
    requires low { 1 ≤ rate }
    requires rate { rate_in (table_view table.now) ≡ Some rate }
    ensures value { IfOk result (IsService (table_view table.now)) }
    ensures some { OnOk result (has_service (table_view table.now) ≡ true) }
    ensures none { OnErr result (has_service (table_view table.now) ≡ false) }
{
    let Some(lead) = number_or(table, Wanted::Lead) else {
        return Err(Wanted::Lead);
    };
    let layout_every = number(table, Wanted::LayoutEvery)?;
    let out_port = number(table, Wanted::OutPort)?;
    let session_port = number(table, Wanted::SessionPort)?;
    let Some(tick) = tick(table) else {
        return Err(Wanted::Tick);
    };
    let Some(tick_ms) = tick_ms(table, rate) else {
        return Err(Wanted::TickMs);
    };
    Ok(Service {
        lead: lead as u16,
        layout_every: layout_every as u16,
        out_port: out_port as u16,
        session_port: session_port as u16,
        tick,
        tick_ms,
    })
}

/// What a node and the merger are told alike.
#[derive(Clone, Copy, Debug)]
pub(crate) struct Common {
    pub output: Output,
    pub timing: Timing,
    pub service: Service,
}

/// What a node and the merger are told alike.
pub(crate) fn read_common(table: &Table) -> Result<Common, Wanted>
    ensures value { IfOk result (IsCommon (table_view table.now)) }
    ensures some { OnOk result (has_common (table_view table.now) ≡ true) }
    ensures none { OnErr result (has_common (table_view table.now) ≡ false) }
{
    let output = output(table)?;
    let timing = timing(table)?;
    let service = service(table, output.rate)?;
    Ok(Common {
        output,
        timing,
        service,
    })
}
