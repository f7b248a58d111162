//! How many elements arrays have.

use std::alloc::{AllocError, Global};
use typed_ast::{Function, ObjectType, ParameterType, Place, Program, Static, Storage};

/// The lengths of the arrays that a function can name, each from the outermost; an object that is no array has none.
#[derive(Drop)]
pub(crate) struct Shapes {
    literals: Vec<u32>,
    statics: Vec<Vec<u32>>,
    objects: Vec<Vec<u32>>,
    // Those of an element, of each array parameter.
    parameters: Vec<Vec<u32>>,
}

impl Shapes {
    /// Those of a program, outside of its functions.
    pub(crate) fn new(alloc: Global, program: &Program) -> Result<Shapes, AllocError> {
        Ok(Shapes {
            literals: literal_lengths(alloc, program.literals.as_slice())?,
            statics: static_lengths(alloc, program.statics.as_slice())?,
            objects: Vec::new(alloc),
            parameters: Vec::new(alloc),
        })
    }

    /// A function begins.
    pub(crate) fn enter(&mut self, alloc: Global, function: &Function) -> Result<(), AllocError> {
        self.objects = object_lengths(alloc, function.objects.as_slice())?;
        self.parameters = row_lengths(alloc, function.function_type.parameters.as_slice())?;
        Ok(())
    }

    /// How many elements or rows the array at a place has; `None` where that is not known.
    pub(crate) fn length(&self, array: &Place) -> Option<u32> {
        self.length_behind(array, 0)
    }

    /// The same of the array `further` subscripts further in.
    fn length_behind(&self, array: &Place, further: usize) -> Option<u32> {
        match array {
            Place::Named(_, storage) => self.length_of(*storage, further),
            Place::Element(_, outer, _) => self.length_behind(outer, further.saturating_add(1)),
        }
    }

    fn length_of(&self, storage: Storage, further: usize) -> Option<u32> {
        match storage {
            Storage::Literal(number) => {
                if further == 0 {
                    self.literals.get(number).copied()
                } else {
                    None
                }
            }
            Storage::Static(number) => nth(self.statics.as_slice(), number, further),
            Storage::Automatic(number) => nth(self.objects.as_slice(), number, further),
            Storage::Parameter(number) => {
                let inner = further.checked_sub(1)?;
                nth(self.parameters.as_slice(), number, inner)
            }
        }
    }
}

/// The length `further` subscripts in, of the array with this number.
fn nth(arrays: &[Vec<u32>], number: usize, further: usize) -> Option<u32> {
    arrays.get(number)?.get(further).copied()
}

fn literal_lengths(alloc: Global, literals: &[Vec<u8>]) -> Result<Vec<u32>, AllocError> {
    let mut lengths = Vec::new(alloc);
    for literal in literals {
        lengths.push(u32::try_from(literal.len()).unwrap_or(u32::MAX))?;
    }
    Ok(lengths)
}

fn static_lengths(alloc: Global, statics: &[Static]) -> Result<Vec<Vec<u32>>, AllocError> {
    let mut lengths = Vec::new(alloc);
    for object in statics {
        let own = Vec::from_slice(alloc, object.object_type.lengths.as_slice())?;
        lengths.push(own)?;
    }
    Ok(lengths)
}

fn object_lengths(alloc: Global, objects: &[ObjectType]) -> Result<Vec<Vec<u32>>, AllocError> {
    let mut lengths = Vec::new(alloc);
    for object in objects {
        let own = Vec::from_slice(alloc, object.lengths.as_slice())?;
        lengths.push(own)?;
    }
    Ok(lengths)
}

/// Those of the elements of array parameters, which are numbered apart.
fn row_lengths(alloc: Global, parameters: &[ParameterType]) -> Result<Vec<Vec<u32>>, AllocError> {
    let mut lengths = Vec::new(alloc);
    for parameter in parameters {
        if let ParameterType::Elements(row) = parameter {
            let own = Vec::from_slice(alloc, row.lengths.as_slice())?;
            lengths.push(own)?;
        }
    }
    Ok(lengths)
}

/// How many parameters are numbers.
pub(crate) fn numbers(parameters: &[ParameterType]) -> usize {
    let mut count: usize = 0;
    for parameter in parameters {
        if matches!(parameter, ParameterType::Number(_)) {
            count = count.saturating_add(1);
        }
    }
    count
}
