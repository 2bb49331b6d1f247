//! What a piece of the consumer's stream is answered.
ghost use Rattle.std.specs.Prelude.{◌≡◌, ◌≤◌, length, true, false, Some, None, IfOk, IfErr};
ghost use Rattle.std.specs.Prelude.{IsErrOf, OnErr, OnOk};
ghost use Rattle.pdc_cfg.specs.Config.{config_fields_of};
ghost use Rattle.pdc_frame.specs.declared.header.TheConstants.{MAX_TEXT};
ghost use Rattle.pdc_session.specs.pdc_memory.Asking.{SomeWasRefused};
ghost use Rattle.pdc_server.specs.Given.{IsGiven};
ghost use Rattle.pdc_server.specs.Remembering.{IsGivenOf, OfFound};
ghost use Rattle.pdc_server.specs.Stream.{IsLayout, IsLayoutWith};
ghost use Rattle.pdc_server.specs.declared.limits.TheConstants.{PIECE_LEN};
ghost use Rattle.pdc_server.specs.Turn.{HasFailed, HasHeard, IsAnswered, IsUnheard, dated_at};

use crate::ended::Ended;
use crate::header::header_of;
use crate::naming::Naming;
use crate::place::Place;
use crate::recent::Recent;
use crate::stamp::Stamp;
use pdc_cfg::{ConfigView, read_config};
use pdc_frame::{StreamId, read_frame};
use pdc_session::{Serving, Session, SessionFault};
use std::sync::Wait;

/// What a consumer asks: a piece of what it sent, the stream that it asks, and the second that the replies are dated with.
#[derive(Clone, Copy, Debug)]
pub struct Question<'a> {
    /// The stream's id.
    pub id: StreamId,
    pub soc: u32,
    pub piece: &'a [u8],
}

/// The configuration in the bytes of a layout frame.
fn config_of<N: Naming>(stamp: Stamp, layout: &[u8]) -> ConfigView<'_>
    requires { ∥ IsLayout N.stream stamp layout.now ∥₁ }
    ensures { ∥ IsLayoutWith N.stream stamp layout.now (config_fields_of result) ∥₁ }
{
    let frame = read_frame(layout).unwrap();
    read_config(&frame).unwrap()
}

/// What replies are made of: the second that they are dated with, the header, and the layout with its stamp.
#[derive(Clone, Copy, Debug)]
struct Source<'a> {
    soc: u32,
    header: &'a [u8],
    stamp: Stamp,
    layout: &'a [u8],
}

/// Appends the replies to the commands that end in the piece.
///
/// # Errors
///
/// Where the session ends. `out` has the replies to the commands before.
fn hear<N: Naming>(
    session: &mut Session,
    piece: &[u8],
    source: &Source<'_>,
    out: &mut Vec<u8>,
) -> Result<(), SessionFault>
    requires header { length source.now.header.now ≤ MAX_TEXT }
    requires layout { ∥ IsLayout N.stream source.now.stamp source.now.layout.now ∥₁ }
    ensures id { session.new.id ≡ session.old.id }
    ensures ok { OnOk result (IsAnswered (dated_at N.stream source.now.soc) source.now.stamp
        source.now.header.now piece.now session.old session.new out.old.items out.new.items) }
    ensures failed { IfErr result (λ fault. HasFailed (dated_at N.stream source.now.soc)
        source.now.stamp source.now.header.now piece.now session.old session.new out.old.items
        out.new.items fault) }
    ensures refused { session.old.ended ≡ None → IsErrOf result SessionFault.NoMemory →
        SomeWasRefused }
{
    let serving = Serving {
        soc: source.soc,
        header: source.header,
        layout: config_of::<N>(source.stamp, source.layout),
    };
    session.feed(piece, &serving, out)
}

/// Appends the replies to the commands that end in the piece, and answers the stamp of the layout that they are made of; nothing where there
/// is no piece. The layout is read into `layout`.
///
/// # Errors
///
/// Where the session ends; `out` has the replies to the commands before. And where a request for the layout was refused.
pub fn answer<N: Naming, R: Wait>(
    rt: &R,
    recent: &Recent<N>,
    question: &Question<'_>,
    session: &mut Session,
    layout: &mut Vec<u8>,
    out: &mut Vec<u8>,
) -> Result<Option<Stamp>, Ended>
    requires { length question.now.piece.now ≤ PIECE_LEN }
    ensures id { session.new.id ≡ session.old.id }
    ensures ok { IfOk result (λ stamp. HasHeard (dated_at N.stream question.now.soc) stamp
        question.now.id.value question.now.piece.now session.old session.new out.old.items
        out.new.items) }
    ensures unheard { IfErr result
        (λ ended. IsUnheard ended (dated_at N.stream question.now.soc) question.now.id.value
        question.now.piece.now session.old session.new out.old.items out.new.items) }
    ensures refused { IsErrOf result Ended.NoMemory → SomeWasRefused }
    ensures denied { session.old.ended ≡ None →
        IsErrOf result (Ended.Session SessionFault.NoMemory) → SomeWasRefused }
{
    if question.piece.is_empty() {
        return Ok(None);
    }
    layout.clear();
    let Ok(stamp) = recent.layout(rt, layout) else {
        return Err(Ended::NoMemory);
    };
    let header = header_of(question.id.value);
    let source = Source {
        soc: question.soc,
        header: &header,
        stamp,
        layout,
    };
    let heard = hear::<N>(session, question.piece, &source, out);
    match heard {
        Ok(()) => Ok(Some(stamp)),
        Err(fault) => Err(Ended::Session(fault)),
    }
}

/// Appends what the consumer at this place is given next, where it wants data, and answers where it stands then. It wants them for the
/// first time where it is fresh.
///
/// # Errors
///
/// Where it wants data, and a request for the frames was refused. `out` is unchanged then.
pub fn append_data<N: Naming, R: Wait>(
    rt: &R,
    session: &Session,
    recent: &Recent<N>,
    place: Place,
    is_fresh: bool,
    out: &mut Vec<u8>,
) -> Result<Place, Ended>
    ensures off { session.now.told.on ≡ false →
        IfOk result (λ reached. (reached ≡ place) × (out.new.items ≡ out.old.items)) }
    ensures on { session.now.told.on ≡ true →
        IfOk result (λ reached. IsGiven N.stream place out.old.items reached out.new.items) }
    ensures given { session.now.told.on ≡ true
        → IfOk result (λ reached. OfFound
        (λ memory. IsGivenOf memory place is_fresh out.old.items reached out.new.items)) }
    ensures err { OnErr result (out.new.items ≡ out.old.items) }
    ensures wanted { IfErr result (λ ended. (ended ≡ Ended.NoMemory)
        × (session.now.told.on ≡ true)) }
    ensures refused { OnErr result SomeWasRefused }
{
    if !session.on() {
        return Ok(place);
    }
    match recent.after(rt, place, is_fresh, out) {
        Ok(reached) => Ok(reached),
        Err(_) => Err(Ended::NoMemory),
    }
}
