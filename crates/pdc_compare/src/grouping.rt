//! Which concentrator each file is of.

use crate::comparison::Comparison;
use crate::entries::Entries;
use crate::files::{Files, Opens};
use pdc_record::{Role, What};
use std::alloc::{AllocError, Global};
use thiserror::Error;

/// Why a file is not compared with those before it.
#[derive(Clone, Copy, Debug, PartialEq, Eq, Error)]
pub enum Misfit {
    /// It is of a third node, or of a second merger.
    #[error("it is of a third node, or of a second merger")]
    OneTooMany,
    /// It has another rate.
    #[error("it has another rate than the files before it")]
    OtherRate,
}

/// What files are of.
#[derive(Drop)]
pub enum Grouped<'a> {
    /// Of one concentrator; or one of them cannot be read, or does not begin as a file of a record does.
    One,
    /// Of two or three.
    Several(Comparison<'a>),
    /// This file is not compared with those before it.
    Misfit(&'a str, Misfit),
}

/// Whose record a file is of.
#[derive(Clone, Copy, Debug, PartialEq, Eq)]
pub struct Owner {
    /// Whose life it is.
    pub role: Role,
    /// The id of its frames.
    pub id: u16,
    /// Its frames a second.
    pub rate: u16,
}

/// The files of one owner.
#[derive(Drop)]
pub struct Owned<'a> {
    /// Whose they are; none where the first of them cannot be read, or does not begin as a file of a record does.
    pub owner: Option<Owner>,
    /// Their names, in their order.
    pub names: Vec<&'a str>,
}

/// The files of one concentrator.
#[derive(Drop)]
struct Group<'a> {
    id: Option<u16>,
    files: Files<'a>,
}

/// The files of a pair and its merger.
#[derive(Drop)]
struct Groups<'a> {
    a: Group<'a>,
    b: Group<'a>,
    m: Group<'a>,
    rate: Option<u16>,
}

/// Whose record these bytes begin.
fn owner_of(bytes: &[u8]) -> Option<Owner> {
    match Entries::from(bytes, 0).next_entry() {
        Ok(Some(entry)) => match entry.what {
            What::Begun(begun) => Some(Owner {
                role: begun.role,
                id: begun.id,
                rate: begun.rate,
            }),
            _ => None,
        },
        _ => None,
    }
}

/// Whose record a file is of.
fn owner_in<O: Opens>(opener: &mut O, name: &str) -> Option<Owner> {
    match opener.open(name) {
        Ok(bytes) => owner_of(bytes.as_slice()),
        Err(_) => None,
    }
}

impl<'a> Group<'a> {
    fn new(alloc: Global) -> Group<'a> {
        Group {
            id: None,
            files: Files::new(alloc),
        }
    }

    /// Whether it has no file of another id.
    fn takes(&self, id: u16) -> bool {
        self.id.is_none() || self.id == Some(id)
    }

    fn add(&mut self, name: &'a str, id: u16) -> Result<(), AllocError> {
        self.id = Some(id);
        self.files.add(name)
    }
}

impl<'a> Groups<'a> {
    /// The files of an owner of this role and id; those of B where A has another id.
    fn of(&mut self, role: Role, id: u16) -> &mut Group<'a> {
        match role {
            Role::Merger => &mut self.m,
            Role::Node if self.a.takes(id) => &mut self.a,
            Role::Node => &mut self.b,
        }
    }

    /// Adds a file to those of its owner; or tells why it is not compared.
    fn add(&mut self, name: &'a str, owner: Owner) -> Result<Option<Misfit>, AllocError> {
        if self.rate.is_some() && self.rate != Some(owner.rate) {
            return Ok(Some(Misfit::OtherRate));
        }
        self.rate = Some(owner.rate);
        let group = self.of(owner.role, owner.id);
        if !group.takes(owner.id) {
            return Ok(Some(Misfit::OneTooMany));
        }
        group.add(name, owner.id)?;
        Ok(None)
    }

    /// Whether more than one of the three has a file.
    fn are_several(&self) -> bool {
        let given = [
            self.a.id.is_some(),
            self.b.id.is_some(),
            self.m.id.is_some(),
        ];
        given.iter().filter(|is_given| **is_given).count() > 1
    }
}

/// Tells of what concentrators the files are: the first node is A, the second is B.
///
/// # Errors
///
/// [`AllocError`] where there is no memory.
pub fn group_files<'a, O: Opens>(
    alloc: Global,
    opener: &mut O,
    names: &[&'a str],
) -> Result<Grouped<'a>, AllocError> {
    let mut groups = Groups {
        a: Group::new(alloc),
        b: Group::new(alloc),
        m: Group::new(alloc),
        rate: None,
    };
    for name in names {
        let Some(owner) = owner_in(opener, name) else {
            return Ok(Grouped::One);
        };
        if let Some(misfit) = groups.add(name, owner)? {
            return Ok(Grouped::Misfit(name, misfit));
        }
    }
    if !groups.are_several() {
        return Ok(Grouped::One);
    }
    let Groups { a, b, m, rate } = groups;
    Ok(Grouped::Several(Comparison::of(alloc, a.files, b.files, m.files, rate.unwrap_or(1))))
}

/// Adds a file to those of its owner.
fn add_owned<'a>(
    alloc: Global,
    owned: &mut Vec<Owned<'a>>,
    owner: Option<Owner>,
    name: &'a str,
) -> Result<(), AllocError> {
    for each in owned.as_mut_slice() {
        if each.owner == owner {
            each.names.push(name)?;
            return Ok(());
        }
    }
    let mut names = Vec::new(alloc);
    names.push(name)?;
    owned.push(Owned { owner, names })?;
    Ok(())
}

/// The files of each owner, in the order of their first files. One that cannot be read, or does not begin as a file of a record does, is
/// with the file before it.
///
/// # Errors
///
/// [`AllocError`] where there is no memory.
pub fn files_of_each<'a, O: Opens>(
    alloc: Global,
    opener: &mut O,
    names: &[&'a str],
) -> Result<Vec<Owned<'a>>, AllocError> {
    let mut owned = Vec::new(alloc);
    let mut last = None;
    for name in names {
        if let Some(owner) = owner_in(opener, name) {
            last = Some(owner);
        }
        add_owned(alloc, &mut owned, last, name)?;
    }
    Ok(owned)
}
