//! References into the store.

ghost use Rattle.std.specs.Prelude.{◌≡◌, ◌+◌, ◌^◌, ◌≤◌, [], IfErr, IfNone, IfOk, IfSome, nat_lt};
ghost use Rattle.interp_store.specs.declared.stop.Stop.TheVariants.{Memory};
ghost use Rattle.csem.specs.Store.{whole, into};
ghost use Rattle.interp_store.specs.View.{reference_of};

use crate::path::Path;
use crate::stop::Stop;
use std::alloc::{AllocError, Global};

/// The object `offset` numbers after object `first`, and a part of it. There are no addresses (6.5.2.1). The sum may be past the
/// last number that memory has, and then there is no such object.
#[derive(Drop)]
pub struct Reference {
    pub first: usize,
    pub offset: usize,
    pub path: Path,
}

impl Reference {
    /// The whole object.
    pub fn whole(object: usize) -> Reference
        ensures { reference_of result ≡ whole object }
    {
        Reference::after(object, 0)
    }

    /// The whole object that many numbers after one.
    #[inline(always)]
    pub fn after(first: usize, offset: usize) -> Reference
        ensures { reference_of result ≡ whole (first + offset) }
    {
        Reference {
            first,
            offset,
            path: Path::Whole,
        }
    }

    /// The number of the object, if memory has that number.
    #[inline(always)]
    pub fn object(&self) -> Option<usize>
        ensures is { IfSome result (λ n. n ≡ (reference_of self.now).object) }
        ensures none { IfNone result (2 ^ 64 ≤ (reference_of self.now).object) }
    {
        self.first.checked_add(self.offset)
    }

    /// Whether the object is one of the first `count` ones.
    #[inline(always)]
    pub fn is_before(&self, count: usize) -> bool
        ensures { result ≡ nat_lt (reference_of self.now).object count }
    {
        match self.object() {
            None => false,
            Some(n) => n < count,
        }
    }

    /// A copy of the reference.
    ///
    /// Errors: memory ran out.
    pub fn copied(&self, alloc: Global) -> Result<Reference, Stop>
        ensures ok { IfOk result (λ r. reference_of r ≡ reference_of self.now) }
        ensures err { IfErr result (λ e. e ≡ Memory) }
    {
        match self.path.copied(alloc) {
            Ok(path) => Ok(Reference {
                first: self.first,
                offset: self.offset,
                path,
            }),
            Err(_) => Err(Stop::Memory),
        }
    }

    /// The element or row `i` of the array (6.5.2.1p2).
    ///
    /// Errors: memory ran out.
    pub fn into_part(self, alloc: Global, i: usize) -> Result<Reference, AllocError>
        ensures { IfOk result (λ r. reference_of r ≡ into (reference_of self) i) }
    {
        let path = self.path.into_part(alloc, i)?;
        Ok(Reference {
            first: self.first,
            offset: self.offset,
            path,
        })
    }
}
