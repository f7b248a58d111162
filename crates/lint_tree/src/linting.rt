//! The warnings of a unit.

use crate::walker::Walker;
use lint::Warning;
use srcset::Names;
use std::alloc::{AllocError, Global};
use tree::{External, Unit};

/// The warnings that follow from the tree of a unit, in no order. `names` is the table of its names.
pub fn unit_warnings(
    alloc: Global,
    unit: &Unit,
    names: &Names,
) -> Result<Vec<Warning>, AllocError> {
    let mut walker = Walker::new(alloc, names)?;
    let mark = walker.scopes.mark();
    walker.externals(unit.externals.as_slice())?;
    walker.end_scope(mark)?;
    Ok(walker.warnings)
}

impl Walker {
    /// Walks external declarations.
    fn externals(&mut self, externals: &[External]) -> Result<(), AllocError> {
        for external in externals {
            match external {
                External::Function(function) => self.function(function)?,
                External::Declaration(declaration) => self.file_declaration(declaration)?,
            }
        }
        Ok(())
    }
}
