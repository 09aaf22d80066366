//! A name that is kept.

ghost use Rattle.std.specs.Prelude.{◌≡◌, nat_eq};
ghost use Rattle.std.specs.Cmp.{partial_equiv_from_equiv};
ghost use Rattle.std.specs.Cmp.Lexicographic.{pointwise, nat_list_eq_equiv};
ghost use Rattle.std.specs.Hash as fed;
ghost use Rattle.std.specs.Hash.{items_Alike, same_Alike};
ghost use Rattle.std.proofs.lemmas.Bool.Decides.{Decides-eqb};

use std::alloc::{AllocError, Global};
use std::fmt;
use std::hash::{Hash, Hasher};
use std::marker::Model;
use std::sync::Arc;

/// A name or a descriptor that is kept. A clause sees its bytes.
///
/// The copies of a name share one block of bytes, and so do the names that are cut from one block. The block is kept
/// as long as one of them is.
pub struct Name {
    block: Arc<Vec<u8>>,
    start: usize,
    len: usize,
}

/// Written out, so that what drops one makes one call of it and doesn't take apart what it holds.
impl Drop for Name {
    fn drop(self) {
        let Name {
            block: _block,
            start: _start,
            len: _len,
        } = self;
    }
}

/// A name is printed as a byte string, without the others of its block.
impl fmt::Debug for Name {
    fn fmt<W: fmt::Write>(&self, f: &mut fmt::Formatter<W>) -> fmt::Result {
        f.write_str("b\"")?;
        for byte in self.as_slice() {
            write!(f, "{}", byte.escape_ascii())?;
        }
        f.write_str("\"")
    }
}

impl Model for Name {
    ghost use Rattle.std.specs.Prelude.{List, ℕ, ◌+◌, ◌≤◌, length, take, drop};

    ghost Value = { List ℕ };

    ghost view = { λ n. take n.len (drop n.start n.block.value.items) };

    ghost invariant = { λ n. n.start + n.len ≤ length n.block.value.items };
}

impl Name {
    ghost use Rattle.std.specs.Prelude.{◌+◌, ◌≤◌, length, take, drop, IfOk, OnOk, OnErr};

    /// A name of these bytes, which are not copied.
    pub fn of(bytes: Vec<u8>) -> Result<Name, AllocError>
        ensures { IfOk result (λ name. name ≡ bytes.items) }
    {
        let alloc = *bytes.allocator();
        let len = bytes.len();
        Ok(Name {
            block: Arc::new(alloc, bytes)?,
            start: 0,
            len,
        })
    }

    /// A name of these bytes, in a block of its own.
    pub fn copied(alloc: Global, bytes: &[u8]) -> Result<Name, AllocError>
        ensures { IfOk result (λ name. name ≡ bytes.now) }
    {
        Name::of(bytes.to_vec(alloc)?)
    }

    /// The bytes, in order.
    pub fn as_slice(&self) -> &[u8]
        ensures { result.now ≡ self.now }
    {
        &self.block.as_slice()[self.start..self.start + self.len]
    }

    /// A copy of the name, which shares its block. It is an error if the block can count no more owners.
    pub fn copy(&self, _alloc: Global) -> Result<Name, AllocError>
        ensures { IfOk result (λ copy. copy ≡ self.now) }
    {
        Ok(Name {
            block: Arc::try_clone(&self.block)?,
            start: self.start,
            len: self.len,
        })
    }

    /// The part of `len` bytes from `at` on, as a name in the same block. It is an error if the block can count no more
    /// owners.
    pub fn part(&self, at: usize, len: usize) -> Result<Name, AllocError>
        requires { at + len ≤ length self.now }
        ensures { IfOk result (λ part. part ≡ take len (drop at self.now)) }
    {
        Ok(Name {
            block: Arc::try_clone(&self.block)?,
            start: self.start + at,
            len,
        })
    }

    /// Splits off the first `count` bytes as a name in the same block; this name keeps the rest. It is an error if the
    /// block can count no more owners.
    pub fn split_to(&mut self, count: usize) -> Result<Name, AllocError>
        requires { count ≤ length self.old }
        ensures front { IfOk result (λ name. name ≡ take count self.old) }
        ensures rest { OnOk result (self.new ≡ drop count self.old) }
        ensures err { OnErr result (self.new ≡ self.old) }
    {
        let front = self.part(0, count)?;
        self.start += count;
        self.len -= count;
        Ok(front)
    }
}

/// A name that is lent: a part of the bytes of a kept name. A clause sees the bytes of the part.
#[derive(Debug, Clone, Drop)]
pub struct LentName<'a> {
    block: &'a Name,
    at: usize,
    len: usize,
}

impl<'a> Model for LentName<'a> {
    ghost use Rattle.std.specs.Prelude.{List, ℕ, ◌+◌, ◌≤◌, length, take, drop};

    ghost Value = { List ℕ };

    ghost view = { λ l. take l.len (drop l.at l.block.now) };

    ghost invariant = { λ l. l.at + l.len ≤ length l.block.now };
}

impl<'a> LentName<'a> {
    ghost use Rattle.std.specs.Prelude.{◌+◌, ◌≤◌, length, take, drop, IfOk};

    /// The whole of this name.
    pub fn of(name: &'a Name) -> Self
        ensures { result ≡ name.now }
    {
        LentName {
            block: name,
            at: 0,
            len: name.as_slice().len(),
        }
    }

    /// The part of `len` bytes of the kept name, from `at` on.
    pub fn within(block: &'a Name, at: usize, len: usize) -> Self
        requires { at + len ≤ length block.now }
        ensures { result ≡ take len (drop at block.now) }
    {
        LentName { block, at, len }
    }

    /// The bytes, in order.
    pub fn as_slice(&self) -> &'a [u8]
        ensures { result.now ≡ self.now }
    {
        &self.block.as_slice()[self.at..self.at + self.len]
    }

    /// A kept name of these bytes, in the same block. It is an error if the block can count no more owners.
    pub fn copy(&self, _alloc: Global) -> Result<Name, AllocError>
        ensures { IfOk result (λ copy. copy ≡ self.now) }
    {
        self.block.part(self.at, self.len)
    }
}

/// Names are equal if their bytes are, one by one.
impl PartialEq for Name {
    ghost eq = { pointwise nat_eq };

    ghost laws = { partial_equiv_from_equiv nat_list_eq_equiv };

    fn eq(&self, other: &Self) -> bool {
        self.as_slice() == other.as_slice()
    }
}

impl Eq for Name {
    ghost laws = { nat_list_eq_equiv };
}

/// A name has the hash of its bytes.
impl Hash for Name {
    ghost hash_input = { fed.slice fed.u8 };

    ghost respects_eq = { (items_Alike (same_Alike fed.u8 Decides-eqb)).fed };

    fn hash<H: Hasher>(&self, state: &mut H) {
        self.as_slice().hash(state);
    }
}
