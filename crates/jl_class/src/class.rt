//! What a class file shows.

ghost use Rattle.std.specs.Prelude.{◌≡◌, ◌==◌, ◌<◌, ◌^◌, ◌++◌, length, map, slice_get, option_copied, option_to_list, Some, true};
ghost use Rattle.jl_class.specs.Flags.{extends_object};
ghost use Rattle.jl_class.specs.Kept.{method_in};

use crate::site::{KeptSite, Sites};
use jl_names::{LentName, Name, Seq};
use jl_pool::Pool;
use std::marker::Model;
use std::sync::Arc;

/// A method as its class file keeps it: its access flags, the numbers of its name and descriptor in the pool, and where its
/// invocations begin and end among those of all the methods.
#[derive(Clone, Copy, Debug, PartialEq, Eq)]
pub struct KeptMethod {
    pub flags: u16,
    pub name: u16,
    pub ty: u16,
    pub from: usize,
    pub to: usize,
}

/// A method of a class file (JVMS SE 17 §4.6), which is lent: its access flags, name and descriptor, and the invocations
/// in its code, by rising pc. None of its functions takes memory.
#[derive(Debug, Drop)]
pub struct Method<'a> {
    pool: &'a Pool,
    sites: &'a [KeptSite],
    kept: KeptMethod,
}

impl<'a> Model for Method<'a> {
    ghost use Rattle.std.specs.Prelude.{◌≡◌, true};
    ghost use Rattle.jl_class.specs.Class as plain;
    ghost use Rattle.jl_class.specs.Kept.{method_in, IsMethodKept};

    ghost Value = { plain.Method };

    ghost view = { λ m. method_in m.pool.now m.sites.now m.kept };

    ghost invariant = { λ m. IsMethodKept m.pool.now m.sites.now m.kept };
}

impl<'a> Method<'a> {
    /// Its access flags.
    pub fn flags(&self) -> u16
        ensures { result ≡ self.now.flags }
    {
        self.kept.flags
    }

    /// Its name.
    pub fn name(&self) -> LentName<'a>
        ensures { result ≡ self.now.name }
    {
        let pool = self.pool;
        pool.text_or_nothing(self.kept.name)
    }

    /// Its descriptor.
    pub fn ty(&self) -> LentName<'a>
        ensures { result ≡ self.now.ty }
    {
        let pool = self.pool;
        pool.text_or_nothing(self.kept.ty)
    }

    /// The invocations in its code, by rising pc.
    pub fn sites(&self) -> Sites<'a>
        ensures { result ≡ self.now.sites }
    {
        let KeptMethod { from, to, .. } = self.kept;
        Sites::of(self.pool, &self.sites[from..to])
    }
}

/// Methods of a class file, which are lent. A clause sees the list of them. None of its functions takes memory.
#[derive(Debug, Drop)]
pub struct Methods<'a> {
    pool: &'a Pool,
    sites: &'a [KeptSite],
    kept: &'a [KeptMethod],
}

impl<'a> Model for Methods<'a> {
    ghost use Rattle.std.specs.Prelude.{List, map};
    ghost use Rattle.jl_class.specs.Class as plain;
    ghost use Rattle.jl_class.specs.Kept.{method_in, AreMethodsKept};

    ghost Value = { List plain.Method };

    ghost view = { λ m. map (method_in m.pool.now m.sites.now) m.kept.now };

    ghost invariant = { λ m. AreMethodsKept m.pool.now m.sites.now m.kept.now };
}

impl<'a> Methods<'a> {
    /// How many there are.
    pub fn len(&self) -> usize
        ensures { result ≡ length self.now }
    {
        self.kept.len()
    }

    /// Whether there is none.
    pub fn is_empty(&self) -> bool
        ensures { result ≡ (length self.now == 0) }
    {
        self.len() == 0
    }

    /// The one at this place of the list.
    pub fn at(&self, place: usize) -> Option<Method<'a>>
        ensures { result ≡ slice_get self.now place }
    {
        match self.kept.get(place) {
            Some(kept) => Some(Method {
                pool: self.pool,
                sites: self.sites,
                kept: *kept,
            }),
            None => None,
        }
    }
}

/// The methods of a class file as they are kept. Copies of the class file share them. It owns the constant pool that was read.
/// Methods name their texts by number, and invocations name what they invoke by number. The invocations of all methods stand in
/// one vector. A clause sees the list of methods.
#[derive(Debug)]
pub struct KeptMethods {
    pub pool: Pool,
    pub sites: Vec<KeptSite>,
    pub methods: Seq<KeptMethod>,
}

/// Written out, so that what drops one makes one call of it and doesn't take apart what it holds.
impl Drop for KeptMethods {
    fn drop(self) {
        let KeptMethods {
            pool: _pool,
            sites: _sites,
            methods: _methods,
        } = self;
    }
}

impl Model for KeptMethods {
    ghost use Rattle.std.specs.Prelude.{List, ◌<◌, ◌^◌, length, map};
    ghost use Rattle.jl_class.specs.Class as plain;
    ghost use Rattle.jl_class.specs.Kept.{method_in, AreMethodsKept};

    ghost Value = { List plain.Method };

    ghost view = { λ k. map (method_in k.pool k.sites.items) k.methods };

    ghost invariant = { λ k. (length k.methods < 2 ^ 16) × AreMethodsKept k.pool k.sites.items k.methods };
}

/// What is kept of a class file (JVMS SE 17 §4.1): its name, access flags, superclass (java/lang/Object alone has
/// none), direct superinterfaces, nest host and nest members as the file names them (§4.7.28, §4.7.29), and methods.
///
/// Lists are in the file's order. Each text is in modified UTF-8, as a part of the pool's bytes. What it answers is lent, and
/// takes no memory.
#[derive(Debug)]
pub struct ClassFile {
    pub kept: Arc<KeptMethods>,
    pub name: Name,
    pub flags: u16,
    pub superclass: Option<Name>,
    pub interfaces: Seq<Name>,
    pub nest_host: Option<Name>,
    pub nest_members: Seq<Name>,
}

/// Written out, so that what drops one makes one call of it and doesn't take apart what it holds.
impl Drop for ClassFile {
    fn drop(self) {
        let ClassFile {
            kept: _kept,
            name: _name,
            flags: _flags,
            superclass: _superclass,
            interfaces: _interfaces,
            nest_host: _nest_host,
            nest_members: _nest_members,
        } = self;
    }
}

impl Model for ClassFile {
    ghost use Rattle.std.specs.Prelude.{◌≡◌, true};
    ghost use Rattle.jl_class.specs.Class as plain;
    ghost use Rattle.jl_class.specs.Flags.{extends_object};

    ghost Value = { plain.ClassFile };

    ghost view = { λ f. record {
      name = f.name;
      flags = f.flags;
      superclass = f.superclass;
      interfaces = f.interfaces;
      nest_host = f.nest_host;
      nest_members = f.nest_members;
      methods = f.kept.value;
    } };

    ghost invariant = { λ f. extends_object f.flags f.superclass ≡ true };
}

impl ClassFile {
    /// Its name.
    pub fn name(&self) -> &Name
        ensures { result.now ≡ self.now.name }
    {
        &self.name
    }

    /// Its access flags.
    pub fn flags(&self) -> u16
        ensures { result ≡ self.now.flags }
    {
        self.flags
    }

    /// The name of its superclass. Only java/lang/Object has none. An interface's is java/lang/Object.
    pub fn superclass(&self) -> Option<&Name>
        ensures name { option_copied result ≡ self.now.superclass }
        ensures interface { extends_object self.now.flags self.now.superclass ≡ true }
    {
        self.superclass.as_ref()
    }

    /// The names of its direct superinterfaces, in the file's order.
    pub fn interfaces(&self) -> &[Name]
        ensures { result.now ≡ self.now.interfaces }
    {
        self.interfaces.as_slice()
    }

    /// The name of its nest host, if the file names one.
    pub fn nest_host(&self) -> Option<&Name>
        ensures { option_copied result ≡ self.now.nest_host }
    {
        self.nest_host.as_ref()
    }

    /// The names of its nest members, in the file's order.
    pub fn nest_members(&self) -> &[Name]
        ensures { result.now ≡ self.now.nest_members }
    {
        self.nest_members.as_slice()
    }

    /// The name of its direct superinterface at this place. The rest is dropped.
    pub fn into_interface(self, place: usize) -> Name
        requires { place < length self.interfaces }
        ensures { Some result ≡ slice_get self.interfaces place }
    {
        let (_superclass, interfaces) = self.into_parents();
        interfaces.into_item(place)
    }

    /// The name of its parent at this place. The rest is dropped. Its superclass, if it has one, is the first parent, and then
    /// come its direct superinterfaces.
    pub fn into_parent(self, place: usize) -> Name
        requires { place < length (option_to_list self.superclass ++ self.interfaces) }
        ensures { Some result ≡ slice_get (option_to_list self.superclass ++ self.interfaces) place }
    {
        let (superclass, interfaces) = self.into_parents();
        parent_at(superclass, interfaces, place)
    }

    /// The names of its superclass and of its direct superinterfaces. The rest is dropped.
    fn into_parents(self) -> (Option<Name>, Seq<Name>)
        ensures { result ≡ (self.superclass, self.interfaces) }
    {
        let ClassFile {
            kept: _kept,
            name: _name,
            flags: _flags,
            superclass,
            interfaces,
            nest_host: _nest_host,
            nest_members: _nest_members,
        } = self;
        (superclass, interfaces)
    }

    /// Its methods, in the file's order: fewer than 65,536.
    pub fn methods(&self) -> Methods<'_>
        ensures methods { result ≡ self.now.methods }
        ensures few { length result < 2 ^ 16 }
    {
        let kept = &*self.kept;
        Methods {
            pool: &kept.pool,
            sites: &kept.sites,
            kept: kept.methods.as_slice(),
        }
    }
}

/// The name at this place. The superclass, if there is one, is the first, and then come the superinterfaces.
fn parent_at(superclass: Option<Name>, interfaces: Seq<Name>, place: usize) -> Name
    requires { place < length (option_to_list superclass ++ interfaces) }
    ensures { Some result ≡ slice_get (option_to_list superclass ++ interfaces) place }
{
    match superclass {
        Some(name) => if place == 0 {
            name
        } else {
            interfaces.into_item(place - 1)
        },
        None => interfaces.into_item(place),
    }
}
