//! The report on the stack.

use cc::StackSize;
use srcset::Names;
use std::alloc::{AllocError, Global};
use typed_ast::Program;
use verify_stack::{Bound, Recursion};

/// How many functions of a recursion are named at most.
const MAX_NAMED: usize = 8;

/// How much of its stack a program takes.
#[derive(Drop)]
pub(crate) struct Stack {
    /// The bytes that it takes at most; `None` where no bound is known.
    pub(crate) most: Option<u64>,
    /// The bytes of the stack.
    pub(crate) size: u32,
    /// How functions call one another without end; empty where they do not.
    pub(crate) recursion: String,
}

/// How much of a stack of this size a program with this bound takes.
pub(crate) fn stack_of(
    alloc: Global,
    program: &Program,
    names: &Names,
    bound: &Bound,
    size: StackSize,
) -> Result<Stack, AllocError> {
    let mut recursion = String::new(alloc);
    let most = match bound {
        Bound::AtMost(most) => Some(*most),
        Bound::Recursive(found) => {
            put_recursion(program, names, found, &mut recursion)?;
            None
        }
        Bound::Unknown => None,
    };
    Ok(Stack {
        most,
        size: size.get(),
        recursion,
    })
}

impl Stack {
    /// Whether the stack suffices on every input.
    pub(crate) fn suffices(&self) -> bool {
        match self.most {
            Some(most) => most <= u64::from(self.size),
            None => false,
        }
    }

    /// Puts the report: `stack at most 176 of 1048576 bytes`, or why that is not shown.
    pub(crate) fn put(&self, alloc: Global, out: &mut String) -> Result<(), AllocError> {
        let size = self.size;
        match self.most {
            Some(most) => {
                let text = if self.suffices() {
                    format!(in alloc; "stack at most {most} of {size} bytes")?
                } else {
                    format!(in alloc; "the stack may not suffice: {most} of {size} bytes")?
                };
                out.push_str(text.as_str())
            }
            None => {
                out.push_str("the stack may not suffice")?;
                if !self.recursion.is_empty() {
                    out.push_str(": ")?;
                    out.push_str(self.recursion.as_str())?;
                }
                Ok(())
            }
        }
    }
}

/// Puts who calls whom: `f calls itself`, `f calls g, which calls f`.
fn put_recursion(
    program: &Program,
    names: &Names,
    recursion: &Recursion,
    out: &mut String,
) -> Result<(), AllocError> {
    out.push_str(name_of(program, names, recursion.function))?;
    if recursion.cycle.len() == 1 {
        return out.push_str(" calls itself");
    }
    out.push_str(" calls ")?;
    for (number, called) in recursion.cycle.iter().enumerate() {
        if number == MAX_NAMED {
            return out.push_str(", and so on");
        }
        if number != 0 {
            out.push_str(", which calls ")?;
        }
        out.push_str(name_of(program, names, *called))?;
    }
    Ok(())
}

/// The name of the function with this number.
fn name_of<'n>(program: &Program, names: &'n Names, number: usize) -> &'n str {
    match program.functions.get(number) {
        Some(function) => names.shown_text(function.name),
        None => "",
    }
}
