//! Files that are left out.

use crate::releases::release_that_takes;
use crate::texts::MissingClasses;
use jl_classfile::{ClassFault, Version};
use jl_json::{FileRefusal, event_refusal_value};
use jl_names::Name;
use jl_paths::{NoClass, NoClassReason, Source, Special, are_reported};
use jl_report::Refused;
use jl_types::{DefineFault, Refusal};
use serde_json::{Map, Value, put};
use std::alloc::{AllocError, Global};

/// Whose file is left out.
#[derive(Clone, Copy, Debug, PartialEq, Eq)]
pub(crate) enum Whose {
    /// Its class would be reported.
    Reported,
    /// Its class would be there, and not reported.
    Beside,
    /// It is the file of a module, and of no class.
    Module,
}

/// A file that is left out, and the answer that refuses it, as a scan or a run gives it.
pub(crate) struct LeftOut {
    pub(crate) path: String,
    pub(crate) answer: Value,
    pub(crate) whose: Whose,
}

/// Written out, so that what drops one makes one call of it and doesn't take apart what it holds.
impl Drop for LeftOut {
    fn drop(self) {
        let LeftOut {
            path: _path,
            answer: _answer,
            whose: _whose,
        } = self;
    }
}

/// Whose file it is, if it is no module's.
fn whose_of(is_reported: bool) -> Whose {
    if is_reported {
        Whose::Reported
    } else {
        Whose::Beside
    }
}

/// Adds the files that are no class files.
pub(crate) fn add_no_classes(
    alloc: Global,
    files: Vec<NoClass>,
    left_out: &mut Vec<LeftOut>,
) -> Result<(), AllocError> {
    for file in files {
        let NoClass { source, reason } = file;
        let whose = match reason {
            NoClassReason::Malformed(ClassFault::ModuleFile) => Whose::Module,
            _ => whose_of(source.is_reported),
        };
        left_out.push(LeftOut {
            path: source.path,
            answer: no_class_answer(alloc, reason)?,
            whose,
        })?;
    }
    Ok(())
}

/// The answer that refuses the file.
fn no_class_answer(alloc: Global, reason: NoClassReason) -> Result<Value, AllocError> {
    match reason {
        NoClassReason::Malformed(fault) => FileRefusal::from(fault).to_value(alloc),
        NoClassReason::OfVersion(version) => of_version(alloc, version),
        NoClassReason::Archive => refused_as(alloc, "Archive"),
        NoClassReason::Special(Special::Fifo) => refused_as(alloc, "Fifo"),
        NoClassReason::Special(Special::Socket) => refused_as(alloc, "Socket"),
        NoClassReason::Special(Special::Device) => refused_as(alloc, "Device"),
    }
}

/// The answer that refuses a file for what it is.
fn refused_as(alloc: Global, name: &str) -> Result<Value, AllocError> {
    let mut members = Map::new(alloc);
    put(
        &mut members,
        alloc,
        "refused",
        Value::try_from_str(alloc, name)?,
    )?;
    Ok(Value::Object(members))
}

/// The answer that refuses a file for its version, with the version and the release that takes it, if one does.
fn of_version(alloc: Global, version: Version) -> Result<Value, AllocError> {
    let mut answer = FileRefusal::from(ClassFault::BadVersion).to_value(alloc)?;
    if let Value::Object(members) = &mut answer {
        if let Some(release) = release_that_takes(version) {
            put(members, alloc, "release", Value::from(release))?;
        }
        let Version { major, minor } = version;
        let mut text = String::new(alloc);
        write!(text, "{major}.{minor}")?;
        put(
            members,
            alloc,
            "version",
            Value::try_from_str(alloc, text.as_str())?,
        )?;
    }
    Ok(answer)
}

/// Adds the file of which no class was made.
fn leave_out(
    alloc: Global,
    source: &Source,
    fault: DefineFault,
    left_out: &mut Vec<LeftOut>,
) -> Result<(), AllocError> {
    let answer = event_refusal_value(alloc, &Refusal::Define(fault))?;
    let path = String::from_str(alloc, source.path.as_str())?;
    let whose = whose_of(source.is_reported);
    Ok(left_out.push(LeftOut {
        path,
        answer,
        whose,
    })?)
}

/// Adds the files of which no classes were made, with the parents that some of them miss. Tells of each file whether its class is there and
/// is to be reported.
pub(crate) fn add_refused(
    alloc: Global,
    sources: &[Source],
    names: &[Name],
    refused: Vec<Refused>,
    missing: &mut MissingClasses,
    left_out: &mut Vec<LeftOut>,
) -> Result<Vec<bool>, AllocError> {
    let mut is_listed = are_reported(alloc, sources)?;
    for one in refused {
        let Refused { place, fault } = one;
        if let Some(listed) = is_listed.get_mut(place) {
            *listed = false;
        }
        if let Some(source) = sources.get(place) {
            if let (DefineFault::MissingParent(parent), Some(name)) = (&fault, names.get(place)) {
                missing.add_parent(alloc, name, parent, source.is_reported)?;
            }
            leave_out(alloc, source, fault, left_out)?;
        }
    }
    Ok(is_listed)
}
