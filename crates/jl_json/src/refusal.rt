//! Answers that refuse.

ghost use Rattle.std.specs.Prelude.{◌≡◌, None, Some, IfOk, OnOk};
ghost use Rattle.serde_json.specs.View.{view, members_view};
ghost use Rattle.jl_json.specs.Refusals.{refusal_of, with_number};
ghost use Rattle.jl_json.specs.Refusals.{pool_refusal, code_refusal, class_refusal, sketch_refusal};

use jl_classfile::ClassFault;
use jl_code::CodeFault;
use jl_pool::PoolFault;
use jl_sketch::SketchFault;
use serde_json::{Map, Value, put};
use std::alloc::{AllocError, Global};
use std::marker::Model;

/// An answer that refuses: the name of the reason, the place that it is about, and the method, by
/// its index.
#[derive(Debug, Drop)]
pub struct FileRefusal {
    reason: &'static str,
    place: Option<u32>,
    method: Option<u32>,
}

impl Model for FileRefusal {
    ghost use Rattle.jl_json.specs.Refusals as plain;

    ghost Value = { plain.FileRefusal };

    ghost view = { λ r. record { reason = r.reason.now; place = r.place; method = r.method } };
}

impl FileRefusal {
    /// A reason alone.
    fn of(reason: &'static str) -> Self
        ensures { result ≡ record { reason = reason.now; place = None; method = None } }
    {
        FileRefusal {
            reason,
            place: None,
            method: None,
        }
    }

    /// A reason at a place.
    fn at(reason: &'static str, place: u32) -> Self
        ensures { result ≡ record { reason = reason.now; place = Some place; method = None } }
    {
        FileRefusal {
            place: Some(place),
            ..FileRefusal::of(reason)
        }
    }

    /// A reason in a method.
    fn in_method(reason: &'static str, method: u16) -> Self
        ensures { result ≡ record { reason = reason.now; place = None; method = Some method } }
    {
        FileRefusal {
            method: Some(u32::from(method)),
            ..FileRefusal::of(reason)
        }
    }

    /// The answer, as JSON.
    ///
    /// # Errors
    ///
    /// Want of memory.
    #[tactic(auto, unfolding(crate::specs::Refusals::refusal_of))]
    pub fn to_value(self, alloc: Global) -> Result<Value, AllocError>
        ensures { IfOk result (λ v. view v ≡ refusal_of self) }
    {
        let mut members = Map::new(alloc);
        let reason = Value::try_from_str(alloc, self.reason)?;
        put(&mut members, alloc, "refused", reason)?;
        put_number(&mut members, alloc, "method", self.method)?;
        put_number(&mut members, alloc, "at", self.place)?;
        Ok(Value::Object(members))
    }
}

/// Puts a number under a key, if there is one.
fn put_number(
    members: &mut Map<String, Value>,
    alloc: Global,
    key: &str,
    number: Option<u32>,
) -> Result<(), AllocError>
    ensures { OnOk result (members_view members.new.entries
        ≡ with_number key.now number (members_view members.old.entries)) }
{
    match number {
        Some(number) => put(members, alloc, key, Value::from(number)),
        None => Ok(()),
    }
}

impl From<PoolFault> for FileRefusal {
    ghost from_gives = { λ f r. r ≡ pool_refusal f };

    fn from(fault: PoolFault) -> FileRefusal {
        match fault {
            PoolFault::Truncated => FileRefusal::of("Pool.Truncated"),
            PoolFault::BadTag(entry) => FileRefusal::at("Pool.BadTag", u32::from(entry)),
            PoolFault::BadIndex(entry) => FileRefusal::at("Pool.BadIndex", u32::from(entry)),
            PoolFault::BadUtf8(entry) => FileRefusal::at("Pool.BadUtf8", u32::from(entry)),
            PoolFault::BadDescriptor(entry) => FileRefusal::at(
                "Pool.BadDescriptor",
                u32::from(entry),
            ),
            PoolFault::Memory => FileRefusal::of("Memory"),
        }
    }
}

impl From<CodeFault> for FileRefusal {
    ghost from_gives = { λ f r. r ≡ code_refusal f };

    fn from(fault: CodeFault) -> FileRefusal {
        match fault {
            CodeFault::BadOpcode(pc) => FileRefusal::at("Code.BadOpcode", u32::from(pc)),
            CodeFault::CutShort(pc) => FileRefusal::at("Code.CutShort", u32::from(pc)),
            CodeFault::BadSwitch(pc) => FileRefusal::at("Code.BadSwitch", u32::from(pc)),
            CodeFault::BadOperand(pc) => FileRefusal::at("Code.BadOperand", u32::from(pc)),
            CodeFault::BadLayout => FileRefusal::of("Code.BadLayout"),
            CodeFault::Memory => FileRefusal::of("Memory"),
        }
    }
}

impl From<ClassFault> for FileRefusal {
    ghost from_gives = { λ f r. r ≡ class_refusal f };

    fn from(fault: ClassFault) -> FileRefusal {
        match fault {
            ClassFault::TooLarge => FileRefusal::of("TooLarge"),
            ClassFault::BadMagic => FileRefusal::of("BadMagic"),
            ClassFault::BadVersion => FileRefusal::of("BadVersion"),
            ClassFault::Truncated => FileRefusal::of("Truncated"),
            ClassFault::Pool(fault) => FileRefusal::from(fault),
            ClassFault::ModuleFile => FileRefusal::of("ModuleFile"),
            ClassFault::BadSuper => FileRefusal::of("BadSuper"),
            ClassFault::DuplicateMethod(i) => FileRefusal::in_method("DuplicateMethod", i),
            ClassFault::TwoCodes(i) => FileRefusal::in_method("TwoCodes", i),
            ClassFault::Code(_, CodeFault::Memory) => FileRefusal::of("Memory"),
            ClassFault::Code(i, fault) => FileRefusal {
                method: Some(u32::from(i)),
                ..FileRefusal::from(fault)
            },
            ClassFault::TrailingBytes => FileRefusal::of("TrailingBytes"),
            ClassFault::BadMember(k) => FileRefusal::at("BadMember", k),
            ClassFault::BadLink(number) => FileRefusal::at("BadLink", u32::from(number)),
            ClassFault::BadNest => FileRefusal::of("BadNest"),
            ClassFault::Memory => FileRefusal::of("Memory"),
        }
    }
}

impl From<SketchFault> for FileRefusal {
    ghost from_gives = { λ f r. r ≡ sketch_refusal f };

    fn from(fault: SketchFault) -> FileRefusal {
        match fault {
            SketchFault::TooBig => FileRefusal::of("TooBig"),
            SketchFault::CallsWithoutCode(i) => FileRefusal::in_method("CallsWithoutCode", i),
            SketchFault::Refused(fault) => FileRefusal::from(fault),
            SketchFault::Memory => FileRefusal::of("Memory"),
        }
    }
}
