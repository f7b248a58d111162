//! Subscripts from an object down to a part of it.

ghost use Rattle.std.specs.Prelude.{◌≡◌, ◌++◌, ◌∷◌, [], IfOk, IsTrue};
ghost use Rattle.interp_store.specs.View.{path_of};

use std::alloc::{AllocError, Global};

/// The subscripts of a row or an element in its object, the outermost first. Up to two need no allocation.
#[derive(Drop)]
pub enum Path {
    Whole,
    One([usize; 1]),
    Two([usize; 2]),
    More(Vec<usize>),
}

impl Path {
    /// The subscripts as a slice.
    pub fn subscripts(&self) -> &[usize]
        ensures { result.now ≡ path_of self.now }
    {
        match self {
            Path::Whole => &[],
            Path::One(subscripts) => subscripts,
            Path::Two(subscripts) => subscripts,
            Path::More(subscripts) => subscripts.as_slice(),
        }
    }

    /// Whether there are none.
    #[inline(always)]
    pub fn is_whole(&self) -> bool
        ensures { IsTrue result → path_of self.now ≡ [] }
    {
        match self {
            Path::Whole => true,
            _ => false,
        }
    }

    /// A copy of the subscripts.
    ///
    /// Errors: memory ran out.
    pub fn copied(&self, alloc: Global) -> Result<Path, AllocError>
        ensures { IfOk result (λ path. path_of path ≡ path_of self.now) }
    {
        match self {
            Path::Whole => Ok(Path::Whole),
            Path::One(subscripts) => Ok(Path::One([subscripts[0]])),
            Path::Two(subscripts) => Ok(Path::Two([subscripts[0], subscripts[1]])),
            Path::More(subscripts) => {
                let same = subscripts.clone()?;
                Ok(Path::More(same))
            }
        }
    }

    /// The same with one subscript more.
    ///
    /// Errors: memory ran out.
    pub fn into_part(self, alloc: Global, i: usize) -> Result<Path, AllocError>
        ensures { IfOk result (λ path. path_of path ≡ path_of self ++ i ∷ []) }
    {
        match self {
            Path::Whole => Ok(Path::One([i])),
            Path::One(outer) => Ok(Path::Two([outer[0], i])),
            Path::Two(outer) => {
                let subscripts = vec![in alloc; outer[0], outer[1], i]?;
                Ok(Path::More(subscripts))
            }
            Path::More(outer) => one_more(outer, i),
        }
    }
}

fn one_more(mut subscripts: Vec<usize>, i: usize) -> Result<Path, AllocError>
    ensures { IfOk result (λ path. path_of path ≡ subscripts.items ++ i ∷ []) }
{
    subscripts.push(i)?;
    Ok(Path::More(subscripts))
}
