//! The objects that references of a run designate, by names.

use crate::naming::{ObjectName, ProgramNames};
use interp_store::Reference;
use interp_store::scene::Scene;
use std::alloc::{AllocError, Global};

/// The object that a reference leads to.
#[derive(Clone, Copy)]
pub struct Designation<'a> {
    /// Its name; empty where that is not known.
    pub name: &'a str,
    /// How many of the reference's subscripts lead to the part that has this name.
    pub skipped: usize,
}

impl ProgramNames {
    /// The name of the function with this number; empty where there is none.
    pub fn function(&self, number: usize) -> &str {
        match self.functions.get(number) {
            Some(function) => function.name.as_str(),
            None => "",
        }
    }

    /// The object with this number in a function.
    pub fn object(&self, function: usize, number: usize) -> Option<&ObjectName> {
        match self.functions.get(function) {
            Some(function) => function.objects.get(number),
            None => None,
        }
    }

    /// The name of the object with this number in a function; empty where that is not known.
    pub fn object_name(&self, function: usize, number: usize) -> &str {
        match self.object(function, number) {
            Some(object) => object.name.as_str(),
            None => "",
        }
    }

    /// The target of a reference in the present call, which is one of the function with this number: the array of a parameter where it
    /// begins with that, else an object.
    pub fn designated(&self, function: usize, scene: &Scene, r: &Reference) -> Designation<'_> {
        for (number, array) in scene.arrays.iter().enumerate() {
            if is_part(r, array) {
                let name = self.array(function, number);
                if !name.is_empty() {
                    return Designation {
                        name,
                        skipped: array.path.subscripts().len(),
                    };
                }
            }
        }
        Designation {
            name: self.whole(function, scene.base, r.object()),
            skipped: 0,
        }
    }

    /// The name of the array parameter with this number.
    fn array(&self, function: usize, number: usize) -> &str {
        match self.functions.get(function) {
            Some(function) => match function.arrays.get(number) {
                Some(name) => name.as_str(),
                None => "",
            },
            None => "",
        }
    }

    /// The name of an object of the run, where those of the present call have the numbers from `base` on.
    fn whole(&self, function: usize, base: usize, object: Option<usize>) -> &str {
        let Some(object) = object else {
            return "";
        };
        let Some(behind) = object.checked_sub(self.literals) else {
            return "";
        };
        if let Some(name) = self.statics.get(behind) {
            return name.as_str();
        }
        let Some(number) = object.checked_sub(base) else {
            return "";
        };
        self.object_name(function, number)
    }

    /// The target of a reference, as the source may write it: a name and subscripts, or `object` and a number where the name is not known.
    ///
    /// Errors: memory ran out.
    pub fn text(
        &self,
        alloc: Global,
        function: usize,
        scene: &Scene,
        r: &Reference,
    ) -> Result<String, AllocError> {
        let found = self.designated(function, scene, r);
        let mut text = shown_name(alloc, found.name, r.object())?;
        let subscripts = r.path.subscripts();
        for subscript in subscripts.get(found.skipped..).unwrap_or_default() {
            let subscript = *subscript;
            text.push_str(format!(in alloc; "[{subscript}]")?.as_str())?;
        }
        Ok(text)
    }
}

/// A name, or, where it is empty, `object` and the number of the object.
///
/// Errors: memory ran out.
pub fn shown_name(alloc: Global, name: &str, object: Option<usize>) -> Result<String, AllocError> {
    if !name.is_empty() {
        return String::from_str(alloc, name);
    }
    match object {
        Some(object) => format!(in alloc; "object {object}"),
        None => String::from_str(alloc, "object"),
    }
}

/// Whether a reference begins with another one.
fn is_part(r: &Reference, whole: &Reference) -> bool {
    r.object() == whole.object() && r.path.subscripts().starts_with(whole.path.subscripts())
}
