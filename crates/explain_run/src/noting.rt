//! Notes on the cause of undefined behaviour.

use crate::following::{ActiveCall, Following};
use crate::telling::values_text;
use explain_findings::{Note, Topic, Undefined};
use srcset::Names;
use std::alloc::{AllocError, Global};

/// The most calls that are reported.
const MOST: usize = 20;

impl Following {
    /// Adds a note with the values before all others, and after them one for each call that is active, the innermost first. The run has
    /// stopped at this operation; `names` are those of the program.
    ///
    /// Errors: memory ran out, also during the run.
    pub fn put_notes(
        &self,
        alloc: Global,
        names: &Names,
        undefined: &mut Undefined,
    ) -> Result<(), AllocError> {
        if !self.has_memory {
            return Err(AllocError);
        }
        if let Some(values) = &self.values {
            if let Some(text) = values_text(alloc, undefined.act, values)? {
                put_value(alloc, text, undefined)?;
            }
        }
        let mut is_innermost = true;
        for call in self.calls.iter().rev().take(MOST) {
            let note = if is_innermost {
                self.innermost(alloc, *call, undefined)?
            } else {
                self.outer(alloc, *call, names)?
            };
            undefined.shown.notes.push(note)?;
            is_innermost = false;
        }
        Ok(())
    }

    /// The innermost call, which has reached the undefined operation itself.
    fn innermost(
        &self,
        alloc: Global,
        call: ActiveCall,
        undefined: &Undefined,
    ) -> Result<Note, AllocError> {
        self.note(alloc, call, undefined.file.as_str(), undefined.line)
    }

    /// A call that waits for another one.
    fn outer(&self, alloc: Global, call: ActiveCall, names: &Names) -> Result<Note, AllocError> {
        self.note(alloc, call, names.file_name(call.at.file), call.at.line)
    }

    fn note(
        &self,
        alloc: Global,
        call: ActiveCall,
        file: &str,
        line: u32,
    ) -> Result<Note, AllocError> {
        let name = self.names.function(call.function);
        Ok(Note {
            topic: Topic::Called,
            file: String::from_str(alloc, file)?,
            line,
            column: 0,
            text: format!(in alloc; "in `{name}`")?,
        })
    }
}

/// Adds a text as the first note.
fn put_value(alloc: Global, text: String, undefined: &mut Undefined) -> Result<(), AllocError> {
    undefined.shown.notes.insert(
        0,
        Note {
            topic: Topic::Value,
            file: String::new(alloc),
            line: 0,
            column: 0,
            text,
        },
    )?;
    Ok(())
}
