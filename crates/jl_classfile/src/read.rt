//! Reads a class file, pass after pass.

ghost use Rattle.std.specs.Prelude.{◌<◌, ◌≤◌, ◌^◌, ◌≡◌, ◌≢◌, length, map, [], slice_get, All, List, ℕ, Some, IsTrue, IfOk, OnOk, IfErr};
ghost use Rattle.jl_classfile.specs.declared.fault.ClassFault.{ClassFault};
ghost use Rattle.jl_classfile.specs.Parts.{Parts};
ghost use Rattle.jl_classfile.specs.ClassFiles.{IsClass, IsClassUpTo};
ghost use Rattle.jl_classfile.specs.declared.fault.ClassFault.TheVariants.{BadVersion, Memory};
ghost use Rattle.jl_classfile.specs.declared.body.Member.{Member};
ghost use Rattle.jl_classfile.specs.Faults.{HeadFault, CodesFault, IsFault, IsFaultUpTo};
ghost use Rattle.jl_pool.specs.Pools.{class_at};
ghost use Rattle.jl_classfile.specs.Shown.{shown, name_or_nothing};
ghost use Rattle.jl_classfile.specs.Conditions.{codes_of, super_fits};
ghost use Rattle.jl_classfile.specs.ForProofs.Passes.{HasHead, fault_of_code, IsMethodFault, SitesAdded, MethodAdded};
ghost use Rattle.jl_classfile.specs.ForProofs.Passes.{MethodsKept, MethodsShown, NamesShown, BodyShown, HasPool, Lies};

use crate::body::{Body, Member, body_at, code_in};
use crate::fault::ClassFault;
use crate::links::check_links;
use crate::member::{CODE, check_attribute_names, check_members, first_called};
use crate::nest::{NestNumbers, nest_of};
use crate::version::{MAGIC, NEWEST_OF_17, is_version};
use jl_class::{ClassFile, KeptMethod, KeptMethods, KeptSite};
use jl_code::{CodeFault, scan};
use jl_names::{Name, Seq};
use jl_pool::{Pool, PoolFault, u2_at, u4_at};
use std::alloc::{AllocError, Global};
use std::sync::Arc;

/// The most bytes of a class file.
const MOST_BYTES: usize = 1_000_000;

impl From<PoolFault> for ClassFault {
    ghost use Rattle.std.specs.Prelude.{◌≡◌};
    ghost use Rattle.jl_classfile.specs.ForProofs.Passes.{fault_of_pool};

    ghost from_gives = { λ fault f. f ≡ fault_of_pool fault };

    fn from(fault: PoolFault) -> ClassFault {
        match fault {
            PoolFault::Memory => ClassFault::Memory,
            fault => ClassFault::Pool(fault),
        }
    }
}

/// The major version, and what comes after the first eight bytes (JVMS SE 17 §4.1).
fn head_at(newest: u16, bytes: &[u8]) -> Result<(u16, &[u8]), ClassFault>
    ensures ok { IfOk result (λ x. HasHead newest bytes.now x.1.now x.0) }
    ensures fault { IfErr result (HeadFault newest bytes.now) }
{
    let Some((magic, after)) = u4_at(bytes) else {
        return Err(ClassFault::Truncated);
    };
    if magic != MAGIC {
        return Err(ClassFault::BadMagic);
    }
    let Some((minor, after)) = u2_at(after) else {
        return Err(ClassFault::Truncated);
    };
    let Some((major, rest)) = u2_at(after) else {
        return Err(ClassFault::Truncated);
    };
    if !is_version(newest, minor, major) {
        return Err(ClassFault::BadVersion);
    }
    Ok((major, rest))
}

/// The fault of a method's code.
fn code_fault(method: u16, fault: CodeFault) -> ClassFault
    ensures { result ≡ fault_of_code method fault }
{
    match fault {
        CodeFault::Memory => ClassFault::Memory,
        fault => ClassFault::Code(method, fault),
    }
}

/// Adds the invocations of a method, or none if it has no code.
fn add_sites(
    pool: &Pool,
    index: u16,
    method: &Member<'_>,
    sites: &mut Vec<KeptSite>,
) -> Result<(), ClassFault>
    requires { length (codes_of pool.now method.now) ≤ 1 }
    ensures ok { OnOk result (SitesAdded pool.now method.now sites.old.items sites.new.items) }
    ensures fault { IfErr result (IsMethodFault pool.now index method.now) }
{
    let Some((attribute, _after)) = first_called(pool, CODE, &method.attributes) else {
        return Ok(());
    };
    let Some(code) = code_in(attribute.info.as_bytes()) else {
        return Err(ClassFault::Code(index, CodeFault::BadLayout));
    };
    match scan(code, pool, sites) {
        Ok(()) => Ok(()),
        Err(fault) => Err(code_fault(index, fault)),
    }
}

/// The class name at a number, kept; the empty name if there is none.
fn kept_class(alloc: Global, pool: &Pool, number: u16) -> Result<Name, AllocError>
    ensures { IfOk result (λ name. name ≡ name_or_nothing pool.now number) }
{
    match pool.class_name(number) {
        Some(name) => name.copy(alloc),
        None => Name::copied(alloc, b""),
    }
}

/// The class names at the numbers, kept.
fn kept_classes(alloc: Global, pool: &Pool, numbers: &[u16]) -> Result<Seq<Name>, AllocError>
    ensures { IfOk result (λ names. names ≡ map (name_or_nothing pool.now) numbers.now) }
{
    let mut names = Vec::with_capacity(alloc, numbers.len())?;
    for number in numbers {
        names.push(kept_class(alloc, pool, *number)?)?;
    }
    Ok(Seq::of(names))
}

/// The class name at a number, kept, if there is one.
fn kept_class_if_any(alloc: Global, pool: &Pool, number: u16) -> Result<Option<Name>, AllocError>
    ensures { IfOk result (λ name. name ≡ class_at pool.now number) }
{
    match pool.class_name(number) {
        Some(name) => Ok(Some(name.copy(alloc)?)),
        None => Ok(None),
    }
}

/// A method, whose invocations are added.
fn method_of(
    pool: &Pool,
    index: u16,
    member: &Member<'_>,
    sites: &mut Vec<KeptSite>,
) -> Result<KeptMethod, ClassFault>
    requires { length (codes_of pool.now member.now) ≤ 1 }
    ensures ok { IfOk result (MethodAdded pool.now member.now sites.old.items sites.new.items) }
    ensures fault { IfErr result (IsMethodFault pool.now index member.now) }
{
    let from = sites.len();
    add_sites(pool, index, member, sites)?;
    Ok(KeptMethod {
        flags: member.flags,
        name: member.name,
        ty: member.descriptor,
        from,
        to: sites.len(),
    })
}

/// The methods, and the invocations of all of them.
fn methods_of(
    alloc: Global,
    pool: &Pool,
    members: &[Member<'_>],
) -> Result<(Seq<KeptMethod>, Vec<KeptSite>), ClassFault>
    requires few { length members.now < 2 ^ 16 }
    requires one_code { All (λ m. length (codes_of pool.now m) ≤ 1) members.now }
    ensures ok { IfOk result (λ x. MethodsKept pool.now members.now x.1.items x.0) }
    ensures fault { IfErr result (λ f. f ≢ Memory → (i : ℕ) × (m : Member) × (slice_get members.now i ≡ Some m) × IsMethodFault pool.now i m f) }
{
    // Class files have about one invocation for each four numbers of the pool.
    let mut sites = Vec::with_capacity(alloc, pool.len() / 4)?;
    let mut methods = Vec::with_capacity(alloc, members.len())?;
    for (i, member) in members.iter().enumerate() {
        methods.push(method_of(pool, i as u16, member, &mut sites)?)?;
    }
    Ok((Seq::of(methods), sites))
}

/// The methods, kept with the pool and the invocations of all of them.
fn kept_methods(
    alloc: Global,
    pool: Pool,
    members: &[Member<'_>],
) -> Result<KeptMethods, ClassFault>
    requires few { length members.now < 2 ^ 16 }
    requires one_code { All (λ m. length (codes_of pool m) ≤ 1) members.now }
    ensures ok { IfOk result (MethodsShown pool members.now) }
    ensures fault { IfErr result (λ f. f ≢ Memory → (i : ℕ) × (m : Member) × (slice_get members.now i ≡ Some m) × IsMethodFault pool i m f) }
{
    let (methods, sites) = methods_of(alloc, &pool, members)?;
    Ok(KeptMethods {
        pool,
        sites,
        methods,
    })
}

/// The names that a class file shows.
#[derive(Drop)]
struct Names {
    name: Name,
    superclass: Option<Name>,
    interfaces: Seq<Name>,
    nest_host: Option<Name>,
    nest_members: Seq<Name>,
}

/// The names that a class file shows whose parts have no fault, kept.
fn names_of(
    alloc: Global,
    pool: &Pool,
    body: &Body<'_>,
    nest: &NestNumbers,
) -> Result<Names, AllocError>
    ensures { IfOk result (NamesShown pool.now body.now nest.now.host nest.now.members) }
{
    Ok(Names {
        name: kept_class(alloc, pool, body.this_class)?,
        superclass: kept_class_if_any(alloc, pool, body.super_class)?,
        interfaces: kept_classes(alloc, pool, body.interfaces.as_slice())?,
        nest_host: match nest.host {
            Some(number) => kept_class_if_any(alloc, pool, number)?,
            None => None,
        },
        nest_members: match &nest.members {
            Some(numbers) => kept_classes(alloc, pool, numbers.as_slice())?,
            None => Seq::of(Vec::new(alloc)),
        },
    })
}

/// What a class file shows whose parts have no fault outside its codes.
fn shown(
    alloc: Global,
    pool: Pool,
    body: &Body<'_>,
    nest: &NestNumbers,
) -> Result<ClassFile, ClassFault>
    requires superclass { IsTrue (super_fits pool body.now) }
    requires few { length body.now.methods < 2 ^ 16 }
    requires one_code { All (λ m. length (codes_of pool m) ≤ 1) body.now.methods }
    ensures ok { IfOk result (BodyShown pool body.now nest.now.host nest.now.members) }
    ensures fault { IfErr result (λ f. f ≢ Memory → CodesFault pool body.now f) }
{
    let names = names_of(alloc, &pool, body, nest)?;
    let kept = kept_methods(alloc, pool, body.methods.as_slice())?;
    Ok(ClassFile {
        kept: Arc::new(alloc, kept)?,
        name: names.name,
        flags: body.flags,
        superclass: names.superclass,
        interfaces: names.interfaces,
        nest_host: names.nest_host,
        nest_members: names.nest_members,
    })
}

/// The pool, and what comes after it (JVMS SE 17 §4.4).
fn pool_at<'a>(
    alloc: Global,
    newest: u16,
    bytes: &'a [u8],
) -> Result<(u16, Pool, &'a [u8]), ClassFault>
    ensures ok { IfOk result (λ x. HasPool newest bytes.now x.0 x.1 x.2.now) }
    ensures fault { IfErr result (λ f. f ≢ Memory → IsFaultUpTo newest bytes.now f) }
{
    if bytes.len() > MOST_BYTES {
        return Err(ClassFault::TooLarge);
    }
    let (major, rest) = head_at(newest, bytes)?;
    let (pool, used) = Pool::read(alloc, rest)?;
    Ok((major, pool, &rest[used..]))
}

/// The major version, the pool and what follows it, if nothing comes after that.
fn laid_at<'a>(
    alloc: Global,
    newest: u16,
    bytes: &'a [u8],
) -> Result<(u16, Pool, Body<'a>), ClassFault>
    ensures ok { IfOk result (λ x. Lies newest bytes.now x.0 x.1 x.2) }
    ensures fault { IfErr result (λ f. f ≢ Memory → IsFaultUpTo newest bytes.now f) }
{
    let (major, pool, later) = pool_at(alloc, newest, bytes)?;
    let (body, rest) = body_at(alloc, later)?;
    if !rest.is_empty() {
        return Err(ClassFault::TrailingBytes);
    }
    Ok((major, pool, body))
}

/// The class file that all of the bytes are (JVMS SE 17 §4): that of [`read_class_up_to`] with [`NEWEST_OF_17`](crate::NEWEST_OF_17).
pub fn read_class(alloc: Global, bytes: &[u8]) -> Result<ClassFile, ClassFault>
    ensures ok { IfOk result (λ file. (p : Parts) × IsClass bytes.now p × (file ≡ shown p)) }
    ensures fault { IfErr result (λ f. f ≢ Memory → IsFault bytes.now f) }
{
    read_class_up_to(alloc, NEWEST_OF_17, bytes)
}

/// The class file that all of the bytes are, if its major version is at most `newest` (JVMS SE 17 §4). A version above
/// [`NEWEST_OF_17`](crate::NEWEST_OF_17) is read as that one. Up to [`NEWEST_KNOWN`](crate::NEWEST_KNOWN) the editions say the same of all that
/// is read; of later versions nothing is known.
///
/// # Errors
///
/// `Memory`, or that of the first pass that fails:
///
/// - `TooLarge`: the size.
/// - `Truncated`, `BadMagic` or `BadVersion`: the first eight bytes (§4.1).
/// - `Pool`: the constant pool (§4.4).
/// - `Truncated` or `TrailingBytes`: the layout of the rest.
/// - `ModuleFile`, `BadLink` or `BadSuper`: the class and its superclasses (§4.1).
/// - `BadLink`, `BadMember`, `DuplicateMethod` or `TwoCodes`: fields and methods (§4.5, §4.6).
/// - `BadLink` or `BadNest`: the class's attributes (§4.7.28, §4.7.29).
/// - `Code`: the codes (§4.7.3).
pub fn read_class_up_to(alloc: Global, newest: u16, bytes: &[u8]) -> Result<ClassFile, ClassFault>
    ensures ok { IfOk result (λ file. (p : Parts) × IsClassUpTo newest bytes.now p × (file ≡ shown p)) }
    ensures fault { IfErr result (λ f. f ≢ Memory → IsFaultUpTo newest bytes.now f) }
{
    let (major, pool, body) = laid_at(alloc, newest, bytes)?;
    check_links(major, &pool, &body)?;
    check_members(alloc, &pool, &body)?;
    check_attribute_names(&pool, &body.attributes)?;
    let nest = nest_of(alloc, major, &pool, &body)?;
    shown(alloc, pool, &body, &nest)
}

/// Bytes are one class file at most.
pub fn one_class()
    ensures { (bytes : List ℕ) (p q : Parts) → IsClass bytes p → IsClass bytes q → p ≡ q }
{}

/// Another newest version changes nothing but which files are refused for their version:
///
/// - A class file up to one version is the same one up to each later version, and up to each earlier one that isn't below its own.
/// - Up to a version below its own it has the fault `BadVersion`, and no other.
/// - Up to whichever versions, bytes are one class file at most, and a class file has no fault.
pub fn later_versions_change_nothing()
    ensures later { (newest later : ℕ) (bytes : List ℕ) (p : Parts) → newest ≤ later → IsClassUpTo newest bytes p → IsClassUpTo later bytes p }
    ensures earlier { (newest later : ℕ) (bytes : List ℕ) (p : Parts) → p.layout.major ≤ newest → IsClassUpTo later bytes p → IsClassUpTo newest bytes p }
    ensures refused { (newest later : ℕ) (bytes : List ℕ) (p : Parts) → newest < p.layout.major → IsClassUpTo later bytes p
        → IsFaultUpTo newest bytes BadVersion }
    ensures only { (newest later : ℕ) (bytes : List ℕ) (p : Parts) (fault : ClassFault) → newest < p.layout.major → IsClassUpTo later bytes p
        → IsFaultUpTo newest bytes fault → fault ≡ BadVersion }
    ensures one { (m n : ℕ) (bytes : List ℕ) (p q : Parts) → IsClassUpTo m bytes p → IsClassUpTo n bytes q → p ≡ q }
    ensures no_fault { (newest : ℕ) (bytes : List ℕ) (p : Parts) (fault : ClassFault) → IsClassUpTo newest bytes p → ¬ IsFaultUpTo newest bytes fault }
{}

/// No class file has a fault.
pub fn no_fault_in_a_class()
    ensures { (bytes : List ℕ) (parts : Parts) (fault : ClassFault) → IsClass bytes parts → ¬ IsFault bytes fault }
{}
