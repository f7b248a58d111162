//! The objects of a run, and those that the present call sees.

ghost use Rattle.std.specs.Prelude.{◌≡◌, ◌+◌, [], ℤ, IfErr, IfOk, OnOk, map, slice_get};
ghost use Rattle.ctypes.specs.Types.{converted};
ghost use Rattle.typed_ast.specs.View.{program_of, storage_of, object_type_of};
ghost use Rattle.csem.specs.Store.{length_of, tree_at};
ghost use Rattle.csem.specs.Machine.{Goes, designated, subscripted, read, stored, write};
ghost use Rattle.csem.specs.Statements as statements;
ghost use Rattle.interp_store.specs.View.{reference_of, store_of, tree_of};
ghost use Rattle.interp_store.specs.layer.Agrees.{Outside, state_in, Runs, number, index_in, combined, stepped};
ghost use Rattle.interp_store.specs.declared.stop.Stop.TheVariants.{Memory};

use crate::element_tree::Tree;
use crate::frames::{Compound, Stepping};
use crate::operators::{operated_at, step_operation, step_value};
use crate::reference::Reference;
use crate::stop::Stop;
use crate::store::Store;
use ctypes::{IntType, Undef, convert};
use srcset::Pos;
use std::alloc::Global;
use typed_ast::{ObjectType, Program, Storage};

/// The objects that live, the number of the first one of the present call, and the arrays that its array parameters refer to.
#[derive(Drop)]
pub struct Scene {
    pub store: Store,
    pub base: usize,
    pub arrays: Vec<Reference>,
}

impl Scene {
    /// The object that a name or a string literal designates (6.5.1p2, p4).
    ///
    /// Errors: memory ran out.
    #[inline(always)]
    pub fn designated(
        &self,
        alloc: Global,
        program: &Program,
        what: Storage,
    ) -> Result<Reference, Stop>
        ensures { (o : Outside) → let s = state_in self.now o in
            Runs reference_of (Goes (designated (program_of program.now) (storage_of what) s) s) result s }
    {
        match what {
            Storage::Literal(n) => Ok(Reference::whole(n)),
            Storage::Static(n) => Ok(Reference::after(program.literals.len(), n)),
            Storage::Automatic(n) => Ok(Reference::after(self.base, n)),
            Storage::Parameter(n) => match self.arrays.get(n) {
                None => Ok(Reference::whole(0)),
                Some(array) => array.copied(alloc),
            },
        }
    }

    /// Object `n` of the present call.
    #[inline(always)]
    pub fn own(&self, n: usize) -> Reference
        ensures { (o : Outside) → reference_of result ≡ statements.own n (state_in self.now o) }
    {
        Reference::after(self.base, n)
    }

    /// The number of an element or row of the array at `r`, if the subscript is one of it.
    #[inline(always)]
    fn index(&self, r: &Reference, subscript: i64) -> Option<usize>
        ensures { result ≡ index_in subscript (length_of (tree_at (store_of self.now.store) (reference_of r.now))) }
    {
        if subscript < 0 {
            return None;
        }
        let i = subscript.cast_unsigned() as usize;
        if i < self.store.length(r) {
            Some(i)
        } else {
            None
        }
    }

    /// The element or row of the array at `r` (6.5.2.1p2).
    ///
    /// Errors: `U5` outside it (6.5.6p8), or memory ran out.
    pub fn subscripted(
        &self,
        alloc: Global,
        at: Pos,
        r: Reference,
        subscript: i64,
    ) -> Result<Reference, Stop>
        ensures { (o : Outside) → let s = state_in self.now o in
            Runs reference_of (subscripted at (reference_of r) subscript s) result s }
    {
        match self.index(&r, subscript) {
            None => Err(Stop::Undefined(Undef::U5, at)),
            Some(i) => match r.into_part(alloc, i) {
                Ok(part) => Ok(part),
                Err(_) => Err(Stop::Memory),
            },
        }
    }

    /// The value of the element at `r`.
    ///
    /// Errors: `U6` where it is indeterminate (6.3.2.1p2).
    #[inline(always)]
    pub fn read(&self, at: Pos, r: &Reference) -> Result<i64, Stop>
        ensures { (o : Outside) → let s = state_in self.now o in Runs number (read at (reference_of r.now) s) result s }
    {
        match self.store.value(r) {
            None => Err(Stop::Undefined(Undef::U6, at)),
            Some(v) => Ok(v),
        }
    }

    /// The element at `r`, if there is one, becomes `v`.
    ///
    /// Errors: memory ran out.
    #[inline(always)]
    pub fn set(&mut self, r: &Reference, v: i64) -> Result<(), Stop>
        ensures ok { (o : Outside) → OnOk result (state_in self.new o ≡ stored (reference_of r.now) v (state_in self.old o)) }
        ensures err { IfErr result (λ e. e ≡ Memory) }
    {
        match self.store.set(r, v) {
            Ok(()) => Ok(()),
            Err(_) => Err(Stop::Memory),
        }
    }

    /// The element at `r` becomes `v`, converted to its type (6.5.16p3).
    ///
    /// Errors: `U7` in a string literal (6.4.5p7).
    #[inline(always)]
    pub fn write(
        &mut self,
        program: &Program,
        at: Pos,
        r: &Reference,
        ty: IntType,
        v: i64,
    ) -> Result<i64, Stop>
        ensures { (o : Outside) →
            Runs number (write (program_of program.now) at (reference_of r.now) (converted ty v) (state_in self.old o)) result (state_in self.new o) }
    {
        if r.is_before(program.literals.len()) {
            return Err(Stop::Undefined(Undef::U7, at));
        }
        let v = convert(ty, v);
        match self.set(r, v) {
            Ok(()) => Ok(v),
            Err(stop) => Err(stop),
        }
    }

    /// A compound assignment, whose right operand is `v`, to the element at `r` (6.5.16.2).
    ///
    /// Errors: `U6` of an indeterminate element, `U1` to `U4` of the operation, `U7` in a string literal.
    pub fn combine(
        &mut self,
        program: &Program,
        c: Compound,
        r: &Reference,
        v: i64,
    ) -> Result<i64, Stop>
        ensures { (o : Outside) →
            Runs number (combined (program_of program.now) c (reference_of r.now) v (state_in self.old o)) result (state_in self.new o) }
    {
        let old = match self.read(c.read_at, r) {
            Ok(old) => old,
            Err(stop) => return Err(stop),
        };
        let new = match operated_at(c.at, c.op, c.of, old, v) {
            Ok(new) => new,
            Err(stop) => return Err(stop),
        };
        self.write(program, c.at, r, c.ty, new)
    }

    /// The element at `r` becomes one more or less (6.5.2.4, 6.5.3.1).
    ///
    /// Errors: `U6` of an indeterminate element, `U1` out of range, `U7` in a string literal.
    pub fn step(&mut self, program: &Program, step: Stepping, r: &Reference) -> Result<i64, Stop>
        ensures { (o : Outside) →
            Runs number (stepped (program_of program.now) step (reference_of r.now) (state_in self.old o)) result (state_in self.new o) }
    {
        let old = match self.read(step.read_at, r) {
            Ok(old) => old,
            Err(stop) => return Err(stop),
        };
        let new = match operated_at(step.at, step_operation(step.op), step.of, old, 1) {
            Ok(new) => new,
            Err(stop) => return Err(stop),
        };
        match self.write(program, step.at, r, step.ty, new) {
            Ok(new) => Ok(step_value(step.moment, old, new)),
            Err(stop) => Err(stop),
        }
    }

    /// Object `n` of the present call, if there is one, becomes indeterminate (6.2.4p6).
    ///
    /// Errors: memory ran out.
    pub fn renew(&mut self, alloc: Global, objects: &[ObjectType], n: usize) -> Result<(), Stop>
        ensures ok { (o : Outside) → OnOk result (state_in self.new o ≡ statements.renewed (map object_type_of objects.now) n (state_in self.old o)) }
        ensures err { IfErr result (λ e. e ≡ Memory) }
    {
        let Some(number) = self.base.checked_add(n) else {
            return Ok(());
        };
        let object = match new_object(alloc, objects, n) {
            Ok(object) => object,
            Err(stop) => return Err(stop),
        };
        self.store.put(number, object);
        Ok(())
    }
}

/// An indeterminate object of the type of number `n`.
fn new_object(alloc: Global, objects: &[ObjectType], n: usize) -> Result<Tree, Stop>
    ensures ok { IfOk result (λ t. tree_of t ≡ statements.new_object (slice_get (map object_type_of objects.now) n)) }
    ensures err { IfErr result (λ e. e ≡ Memory) }
{
    match objects.get(n) {
        None => Ok(Tree::Element(None)),
        Some(ty) => match Tree::indeterminate(alloc, ty.lengths.as_slice()) {
            Ok(object) => Ok(object),
            Err(_) => Err(Stop::Memory),
        },
    }
}
