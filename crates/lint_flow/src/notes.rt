//! Notes on a place, an operator or a call.

use crate::ranges::{constant_result, span_of};
use crate::walker::Walker;
use ctypes::{BinOp, IntType};
use lint::{Detail, Kind, Warning};
use srcset::Pos;
use std::alloc::AllocError;
use typed_ast::{Callee, Place, Storage, Value};

impl Walker {
    fn warn(&mut self, kind: Kind, pos: Pos, detail: Detail) -> Result<(), AllocError> {
        self.warnings.push(Warning {
            kind,
            pos,
            name: None,
            detail,
        })?;
        Ok(())
    }

    /// The value at a place is used: warns where it may have none, once an object.
    pub(crate) fn note_read(&mut self, place: &Place) -> Result<(), AllocError> {
        let Place::Named(pos, Storage::Automatic(object)) = place else {
            return Ok(());
        };
        if self.paths.has_value(self.now, *object) || self.is_told(*object) {
            return Ok(());
        }
        self.warn(Kind::MaybeUninitialized, *pos, Detail::Nothing)
    }

    /// Whether an object was reported already; marks it as reported.
    fn is_told(&mut self, object: usize) -> bool {
        match self.told.get_mut(object) {
            Some(told) => {
                let before = *told;
                *told = true;
                before
            }
            None => true,
        }
    }

    /// A place is given a value. A store to an object that does not belong to the call alone is an effect.
    pub(crate) fn note_stored(&mut self, place: &Place) {
        match place {
            Place::Named(_, Storage::Automatic(object)) => {
                self.paths.note(self.now, *object, true);
            }
            Place::Named(_, _) => self.has_effect = true,
            Place::Element(_, array, _) => {
                if !is_own(array) {
                    self.has_effect = true;
                }
            }
        }
    }

    /// Warns of an index that is none of its array's.
    pub(crate) fn note_index(
        &mut self,
        pos: Pos,
        array: &Place,
        index: &Value,
    ) -> Result<(), AllocError> {
        let Some(length) = self.shapes.length(array) else {
            return Ok(());
        };
        let values = span_of(index);
        if values.greatest < 0 || values.least >= i64::from(length) {
            self.warn(Kind::ArrayBounds, pos, Detail::Index(values.least, length))
        } else {
            Ok(())
        }
    }

    /// Warns of a comparison that has one result.
    pub(crate) fn note_comparison(
        &mut self,
        pos: Pos,
        op: BinOp,
        ty: IntType,
        left: &Value,
        right: &Value,
    ) -> Result<(), AllocError> {
        match constant_result(op, ty, left, right) {
            Some(holds) => self.warn(Kind::TypeLimits, pos, Detail::Always(holds)),
            None => Ok(()),
        }
    }

    /// A function is called.
    pub(crate) fn note_call(&mut self, callee: Callee) -> Result<(), AllocError> {
        match callee {
            Callee::Function(number) => {
                let is_effect = self.effects.get(number).copied().unwrap_or(true);
                self.has_effect = self.has_effect || is_effect;
                Ok(())
            }
            Callee::Exit => {
                self.has_effect = true;
                self.stop()
            }
            Callee::GetByte | Callee::PutByte | Callee::Missing(_) => {
                self.has_effect = true;
                Ok(())
            }
        }
    }

    /// Warns of a call that does nothing but give a result, which is not used.
    pub(crate) fn note_alone(&mut self, value: &Value) -> Result<(), AllocError> {
        let Value::Call(pos, Callee::Function(number), Some(_), _, _) = value else {
            return Ok(());
        };
        if self.effects.get(*number).copied().unwrap_or(true) {
            return Ok(());
        }
        self.warn(Kind::UnusedResult, *pos, Detail::Nothing)
    }
}

/// Whether a place belongs to the present call alone.
fn is_own(place: &Place) -> bool {
    match place {
        Place::Named(_, storage) => matches!(storage, Storage::Automatic(_)),
        Place::Element(_, array, _) => is_own(array),
    }
}
