//! What is told where a run cannot begin with its mark.

use crate::complaint::complain_of;
use pdc_any_mark::read_mark_file;
use pdc_command_line::Running;
use pdc_mark::MarkFault;
use pdc_service::read_settings_text;
use pdc_settings::{Document, MergerSettings, NodeSettings};
use std::fmt::{Display, Formatter};
use std::fs::File;
use std::rt::Files;
use std::{fmt, io};

/// Who owns a mark: a concentrator of this id, that publishes so many frames a second.
#[derive(Clone, Copy, Debug)]
struct Owner {
    id: u16,
    rate: u16,
}

/// The mark of another owner than the settings have. It prints with both.
#[derive(Clone, Copy, Debug)]
struct OtherOwner<'a> {
    of_mark: Owner,
    settings: &'a str,
    of_settings: Owner,
}

impl Display for Owner {
    fn fmt<W: fmt::Write>(&self, f: &mut Formatter<W>) -> fmt::Result {
        let (id, rate) = (self.id, self.rate);
        write!(f, "id {id} and rate {rate}")
    }
}

impl Display for OtherOwner<'_> {
    fn fmt<W: fmt::Write>(&self, f: &mut Formatter<W>) -> fmt::Result {
        let (of_mark, settings, of_settings) = (self.of_mark, self.settings, self.of_settings);
        write!(
            f,
            "it is the mark of {of_mark}, but {settings} has {of_settings}"
        )
    }
}

/// The owner that settings name.
fn owner_in<R: Files<File = File> + AllocGlobal>(rt: &R, settings: &str) -> Option<Owner> {
    let (alloc, text) = (rt.alloc(), read_settings_text(rt, settings).ok()?);
    let document = Document::parse(alloc, &text).ok()?;
    let output = if document.is_merger() {
        MergerSettings::from_document(&document).ok()?.life.output
    } else {
        NodeSettings::from_document(&document).ok()?.life.output
    };
    Some(Owner {
        id: output.id.value,
        rate: output.rate,
    })
}

/// The owner of a mark.
fn owner_of<R: Files<File = File>>(rt: &R, mark: &str) -> Option<Owner> {
    let found = read_mark_file(rt, mark).ok()?;
    Some(Owner {
        id: found.id,
        rate: found.rate,
    })
}

/// Both owners, where both are found.
fn both_owners<'a, R: Files<File = File> + AllocGlobal>(
    rt: &R,
    request: &Running<'a>,
) -> Option<OtherOwner<'a>> {
    Some(OtherOwner {
        of_mark: owner_of(rt, request.mark)?,
        settings: request.settings,
        of_settings: owner_in(rt, request.settings)?,
    })
}

/// Tells why a run cannot begin with its mark: both owners, where the mark is of another one.
pub fn report_mark<R: Files<File = File> + AllocGlobal + Eprint>(
    rt: &R,
    command: &str,
    request: &Running,
    fault: MarkFault,
) -> io::Result<()> {
    let (mark, unusable) = (request.mark, "the run cannot begin with this mark");
    if fault != MarkFault::OtherOwner {
        return complain_of(rt, command, mark, &unusable);
    }
    match both_owners(rt, request) {
        Some(owners) => complain_of(rt, command, mark, &owners),
        None => complain_of(rt, command, mark, &unusable),
    }
}
