//! What a simulated PMU sends, frame by frame.
ghost use Rattle.std.specs.Prelude.{◌≡◌, ◌≤◌, ℕ, List, IfErr, OnErr, OnOk};
ghost use Rattle.pdc_simulation.specs.Sent.{HasTaken, IsAll, IsFirstPart, IsFront, IsSimulated};
ghost use Rattle.pdc_simulation.specs.Sent.{IsUpTo, Stands, frames_of, run_of};
ghost use Rattle.pdc_simulation.specs.Starting.{IsBegun};
ghost use Rattle.pdc_simulation.specs.Stopped.{IsCause, IsClock, IsStopped};

use crate::begun::{begun, second_of};
use crate::fault::SimulationFault;
use crate::handing::{hand, is_config_due, repeat_config, send_number};
use crate::run::Run;
use crate::sender::Sender;
use crate::served::Served;
use crate::simulated::Simulated;
use pdc_ports::Sink;
use pdc_ticking::instant_at;
use std::alloc::Global;
use std::rt::Clock;
use std::thread;
use std::time::{Duration, SystemTime};

/// The nanoseconds in a second.
const NANOSECONDS: u128 = 1_000_000_000;

/// The nanoseconds since 1970; 0 where the clock shows an earlier time.
fn nanoseconds_now<R: Clock>(rt: &R) -> Result<u128, SimulationFault>
    ensures { IfErr result IsClock }
{
    let now = match SystemTime::now(rt) {
        Ok(now) => now,
        Err(error) => return Err(SimulationFault::Clock(error)),
    };
    let since = now
        .duration_since(SystemTime::UNIX_EPOCH)
        .unwrap_or(Duration::ZERO);
    Ok(since.as_nanos())
}

/// Sleeps until the clock reaches the instant.
fn sleep_until<R: Clock>(rt: &R, instant: u64, rate: u16) -> Result<(), SimulationFault>
    requires { 1 ≤ rate }
    ensures { IfErr result IsClock }
{
    let due = (u128::from(instant) * NANOSECONDS).div_ceil(u128::from(rate));
    let left = due.saturating_sub(nanoseconds_now(rt)?);
    thread::sleep(rt, Duration::from_nanos(u64::try_from(left).unwrap_or(0)));
    Ok(())
}

/// Answers who asks, dated with the second of the instant.
fn hear(served: &mut Option<Served>, instant: u64, rate: u16, config: &[u8])
    requires { 1 ≤ rate }
{
    if let Some(served) = served {
        served.hear(second_of(instant, rate), config);
    }
}

/// Sends a data frame that went out to who is served.
fn pass_on(served: &mut Option<Served>, is_sent: bool, frame: &[u8]) {
    if let Some(served) = served {
        if is_sent {
            served.send(frame);
        }
    }
}

/// Sends so many data frames from the first instant on, one for each instant as the clock reaches it, and the configuration again where
/// it is due.
fn send_frames<K: Sink, R: Clock>(
    rt: &R,
    run: &Run<'_>,
    sender: &mut Sender,
    config: &[u8],
    served: &mut Option<Served>,
    sink: &mut K,
) -> Result<(), SimulationFault>
    requires stands { Stands (run_of run.now.simulated.now run.now.first) 0 sender.old.pmu }
    ensures ok { OnOk result (HasTaken K.took (run_of run.now.simulated.now run.now.first)
        config.now
        (IsUpTo (run_of run.now.simulated.now run.now.first) run.now.simulated.now.count) sink.old
        sink.new) }
    ensures cut { OnErr result (HasTaken K.took (run_of run.now.simulated.now run.now.first)
        config.now
        (IsFirstPart (run_of run.now.simulated.now run.now.first)) sink.old sink.new) }
    ensures err { IfErr result (λ fault. IsCause fault (K.failures_of sink.old)
        (K.failures_of sink.new)) }
    ensures more { K.failures_of sink.old ≤ K.failures_of sink.new }
{
    let rate = run.simulated.rate;
    for number in 0..run.simulated.count {
        let instant = run.first.saturating_add(u64::from(number));
        if let Err(fault) = sleep_until(rt, instant, rate) {
            return Err(fault);
        }
        hear(served, instant, rate, config);
        let is_due = is_config_due(number, run.simulated.config_every, rate);
        if let Err(fault) = repeat_config(is_due, config, sink) {
            return Err(fault);
        }
        match send_number(run, number, sender, sink) {
            Ok(is_sent) => pass_on(served, is_sent, &sender.frame),
            Err(fault) => return Err(fault),
        }
    }
    Ok(())
}

/// Sends the configuration, and then the data frames from the first instant on.
fn send_all<K: Sink, R: Clock>(
    rt: &R,
    run: &Run<'_>,
    sender: &mut Sender,
    config: &[u8],
    served: &mut Option<Served>,
    sink: &mut K,
) -> Result<(), SimulationFault>
    requires stands { Stands (run_of run.now.simulated.now run.now.first) 0 sender.old.pmu }
    ensures ok { OnOk result (HasTaken K.took (run_of run.now.simulated.now run.now.first)
        config.now
        (IsAll (run_of run.now.simulated.now run.now.first)) sink.old sink.new) }
    ensures cut { OnErr result (HasTaken K.took (run_of run.now.simulated.now run.now.first)
        config.now
        (IsFront (run_of run.now.simulated.now run.now.first)) sink.old sink.new) }
    ensures err { IfErr result (λ fault. IsCause fault (K.failures_of sink.old)
        (K.failures_of sink.new)) }
{
    match hand(sink, config) {
        Ok(()) => send_frames(rt, run, sender, config, served, sink),
        Err(fault) => Err(fault),
    }
}

/// Sends one configuration to the sink, and then so many data frames from the first instant on, one for each instant as the clock reaches
/// it: STAT 0, the phasor (`number` mod 32768, 0), FREQ 0 and DFREQ 0, or what a bus of the grid has. An instant past the last second that
/// a frame can tell is not sent. The same configuration frame goes out again, before the data frame that is due then, as often as is asked.
/// Who is `served` is answered, and gets each data frame while he wants data.
///
/// # Errors
///
/// A sink that fails, a clock that cannot be read, and want of memory. The sink took the first part of these frames then.
pub fn simulate_from<K: Sink, R: Clock>(
    rt: &R,
    alloc: Global,
    simulated: &Simulated<'_>,
    first: u64,
    served: &mut Option<Served>,
    sink: &mut K,
) -> Result<(), SimulationFault>
    ensures ok { OnOk result (IsSimulated K.took (run_of simulated.now first) sink.old sink.new) }
    ensures err { IfErr result (IsStopped K.took K.failures_of (run_of simulated.now first)
        sink.old sink.new) }
{
    match begun(alloc, simulated, first) {
        Ok((pmu, config)) => {
            let run = Run { simulated, first };
            let mut sender = Sender::new(alloc, pmu);
            send_all(rt, &run, &mut sender, &config, served, sink)
        }
        Err(fault) => Err(fault),
    }
}

/// The same from the instant on that the clock shows.
///
/// # Errors
///
/// Those of [`simulate_from`].
pub fn simulate_into<K: Sink, R: Clock>(
    rt: &R,
    alloc: Global,
    simulated: &Simulated<'_>,
    served: &mut Option<Served>,
    sink: &mut K,
) -> Result<(), SimulationFault>
    ensures ok { OnOk result ((first : ℕ)
        × IsSimulated K.took (run_of simulated.now first) sink.old sink.new) }
    ensures err { IfErr result (λ fault. (first : ℕ)
        × IsStopped K.took K.failures_of (run_of simulated.now first) sink.old sink.new fault) }
{
    match nanoseconds_now(rt) {
        Ok(now) => simulate_from(
            rt,
            alloc,
            simulated,
            instant_at(now, simulated.rate),
            served,
            sink,
        ),
        Err(fault) => Err(fault),
    }
}
