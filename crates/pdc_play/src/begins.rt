//! A script on a world that begins.
ghost use Rattle.std.specs.Prelude.{◌≡◌, ◌+◌, ◌≤◌, IfOk, IsErrOf, Ok, Some};
ghost use Rattle.std.specs.Io.KnownBytes.{IsAtEnd};
ghost use Rattle.pdc_history.specs.pdc_memory.Asking.{SomeWasRefused};
ghost use Rattle.pdc_history.specs.declared.event_fault.Fault.TheVariants.{NoMemory};
ghost use Rattle.pdc_mark.specs.Stored.{first_stored};
ghost use Rattle.pdc_play.specs.Counted.{reader_of, reads_of};
ghost use Rattle.pdc_play.specs.declared.ending.Ending.TheVariants.{Played, Refused};
ghost use Rattle.pdc_play.specs.declared.run.TheConstants.{MAX_READS};
ghost use Rattle.pdc_play.specs.Roles.{roles_of};
ghost use Rattle.pdc_play.specs.Told.{IsPlayedBy, IsPlayedOn, world_over};

use crate::any::{AnySettings, Roles, roles_of_three};
use crate::counted::CountedReader;
use crate::ending::Ending;
use crate::fault::PlayFault;
use crate::on_world::OnWorld;
use crate::run::run_script;
use crate::unbegun::tell_unbegun;
use pdc_history::{Fault, Premise, lives_are_lives};
use pdc_mark::{ModelMark, Store};
use pdc_world::{Leads, World, headline_holds};
use std::alloc::Global;
use std::io::{Read, Write};

/// Plays a script on a world of these settings over these marks, those of nodes A and B and of the merger. Where the world does not begin,
/// that is printed, and nothing is read.
///
/// # Errors
///
/// The first failure of the reader or the writer, an input that goes on after the last read, or want of memory for a line: a request for
/// some was refused.
pub fn play_over<S: Store + Drop, R: Read, W: Write>(
    alloc: Global,
    roles: Roles,
    stores: (S, S, S),
    reader: &mut CountedReader<R>,
    writer: &mut W,
) -> Result<Ending, PlayFault>
    ensures told { IfOk result (IsPlayedOn (world_over roles (S.stored stores.0)
        (S.stored stores.1) (S.stored stores.2))
        (R.remaining (reader_of reader.old)) (R.remaining (reader_of reader.new))
        (W.contents writer.old) (W.contents writer.new)) }
    ensures whole { result ≡ Ok Played → IsAtEnd (R.remaining (reader_of reader.new)) }
    ensures reads { reads_of reader.new ≤ reads_of reader.old + MAX_READS }
    ensures refused { result ≡ Ok (Refused NoMemory) → SomeWasRefused }
    ensures denied { IsErrOf result PlayFault.Memory → SomeWasRefused }
{
    let leads = Leads {
        a: roles.a.service.lead,
        b: roles.b.service.lead,
        m: roles.m.service.lead,
    };
    let Roles { a, b, m } = roles;
    match World::over(alloc, a.life, b.life, m.life, leads, stores) {
        Ok(world) => {
            let mut on = OnWorld::new(world);
            let ended = run_script(alloc, &mut on, reader, writer);
            lives_are_lives();
            headline_holds(on.world());
            ended
        }
        Err(error) => tell_unbegun(error.fault, writer),
    }
}

/// Plays a script on a world of these settings over new marks.
///
/// # Errors
///
/// As of [`play_over`].
pub fn play_roles<R: Read, W: Write>(
    alloc: Global,
    roles: Roles,
    reader: &mut CountedReader<R>,
    writer: &mut W,
) -> Result<Ending, PlayFault>
    ensures told { IfOk result (IsPlayedOn (world_over roles first_stored first_stored first_stored)
        (R.remaining (reader_of reader.old)) (R.remaining (reader_of reader.new))
        (W.contents writer.old) (W.contents writer.new)) }
    ensures whole { result ≡ Ok Played → IsAtEnd (R.remaining (reader_of reader.new)) }
    ensures reads { reads_of reader.new ≤ reads_of reader.old + MAX_READS }
    ensures refused { result ≡ Ok (Refused NoMemory) → SomeWasRefused }
    ensures denied { IsErrOf result PlayFault.Memory → SomeWasRefused }
{
    let stores = (
        ModelMark::new(0, 0),
        ModelMark::new(0, 0),
        ModelMark::new(0, 0),
    );
    play_over(alloc, roles, stores, reader, writer)
}

/// The same of three settings of either kind. Those that are not two nodes' and the merger's, in this order, do not fit together.
///
/// # Errors
///
/// As of [`play_over`].
pub fn play_settings<R: Read, W: Write>(
    alloc: Global,
    a: AnySettings,
    b: AnySettings,
    m: AnySettings,
    reader: &mut CountedReader<R>,
    writer: &mut W,
) -> Result<Ending, PlayFault>
    ensures told { IfOk result (IsPlayedBy (roles_of a b m)
        (R.remaining (reader_of reader.old)) (R.remaining (reader_of reader.new))
        (W.contents writer.old) (W.contents writer.new)) }
    ensures whole { result ≡ Ok Played → IsAtEnd (R.remaining (reader_of reader.new)) }
    ensures reads { reads_of reader.new ≤ reads_of reader.old + MAX_READS }
    ensures refused { result ≡ Ok (Refused NoMemory) → SomeWasRefused }
    ensures denied { IsErrOf result PlayFault.Memory → SomeWasRefused }
{
    match roles_of_three(a, b, m) {
        Some(roles) => play_roles(alloc, roles, reader, writer),
        None => tell_unbegun(Fault::PremiseBroken(Premise::OneTable), writer),
    }
}
