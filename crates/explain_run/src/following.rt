//! An observer of a run up to its undefined behaviour.

use crate::refusals::{Values, is_outside, is_refused_sign, refused, refused_step};
use cabs::Observer;
use ctypes::{BinOp, IntType};
use interp_store::Reference;
use interp_store::frames::{
    Compound, FlowFrame, Found, Frame, Node, OperandFrame, Passed, PlaceFrame, Stepping,
};
use interp_store::scene::Scene;
use object_names::ProgramNames;
use srcset::Pos;
use std::alloc::{AllocError, Global};
use typed_ast::{Initialiser, Value};

/// A place that is none.
const NOWHERE: Pos = Pos { file: 0, line: 0 };

/// A call that is active: the number of its function, and the place that it has reached, which is not known of the innermost.
#[derive(Clone, Copy)]
pub(crate) struct ActiveCall {
    pub function: usize,
    pub at: Pos,
}

/// An observer that records which calls are active, and the values with which an operation will be undefined.
#[derive(Drop)]
pub struct Following {
    alloc: Global,
    pub(crate) names: ProgramNames,
    pub(crate) calls: Vec<ActiveCall>,
    // The place of the call whose arguments are found.
    coming: Pos,
    pub(crate) values: Option<Values>,
    pub(crate) has_memory: bool,
}

impl Following {
    /// Before the run of a program with these names.
    pub fn new(alloc: Global, names: ProgramNames) -> Following {
        Following {
            alloc,
            names,
            calls: Vec::new(alloc),
            coming: NOWHERE,
            values: None,
            has_memory: true,
        }
    }

    /// The number of the present call's function.
    fn function(&self) -> usize {
        match self.calls.last() {
            Some(call) => call.function,
            None => usize::MAX,
        }
    }

    /// Records these values, where there was memory for them.
    fn keep(&mut self, values: Result<Values, AllocError>) {
        match values {
            Ok(values) => self.values = Some(values),
            Err(_) => self.has_memory = false,
        }
    }

    /// Records the name of an element.
    fn keep_element(&mut self, scene: &Scene, element: &Reference) {
        let values = element_of(self.alloc, &self.names, self.function(), scene, element);
        self.keep(values);
    }

    /// Records an index and the name and length of its array.
    fn keep_index(&mut self, scene: &Scene, array: &Reference, index: i64) {
        let text = self.names.text(self.alloc, self.function(), scene, array);
        let values = match text {
            Ok(name) => Ok(Values::Index(name, index, scene.store.length(array))),
            Err(error) => Err(error),
        };
        self.keep(values);
    }

    /// An operation is about to be executed.
    fn operation(&mut self, op: BinOp, ty: IntType, left: i64, right: i64) {
        if let Some(operands) = refused(op, ty, left, right) {
            self.values = Some(Values::Operands(operands));
        }
    }

    /// An element is about to be written.
    fn writing(&mut self, scene: &Scene, element: &Reference) {
        if element.is_before(self.names.literals) {
            self.keep_element(scene, element);
        }
    }

    /// A compound assignment is about to be executed, whose right operand is this.
    fn compound(&mut self, scene: &Scene, c: &Compound, element: &Reference, right: i64) {
        match scene.store.value(element) {
            None => self.keep_element(scene, element),
            Some(old) => {
                self.writing(scene, element);
                self.operation(c.op, c.of, old, right);
            }
        }
    }

    /// `++` or `--` is about to be executed.
    fn step(&mut self, scene: &Scene, step: &Stepping, element: &Reference) {
        match scene.store.value(element) {
            None => self.keep_element(scene, element),
            Some(old) => {
                self.writing(scene, element);
                if let Some(operands) = refused_step(step.op, step.of, old) {
                    self.values = Some(Values::Operands(operands));
                }
            }
        }
    }

    /// A place is passed to the frame that waits for it.
    fn place_found(&mut self, frame: &PlaceFrame<'_>, scene: &Scene, found: &Reference) {
        match frame {
            PlaceFrame::Reads(_) => {
                if scene.store.value(found).is_none() {
                    self.keep_element(scene, found);
                }
            }
            PlaceFrame::Steps(step) => self.step(scene, step, found),
            PlaceFrame::ArrayPassed(asked) => self.coming = asked.at,
            PlaceFrame::Indexes(_, _) => {}
            PlaceFrame::Assigns(_, _, _) | PlaceFrame::Compounds(_, _) => {}
        }
    }

    /// A value is passed to the operator that waits for it.
    fn operand_found(&mut self, frame: &OperandFrame<'_>, scene: &Scene, found: i64) {
        match frame {
            OperandFrame::IndexOf(_, array) => {
                if is_outside(scene, array, found) {
                    self.keep_index(scene, array, found);
                }
            }
            OperandFrame::Stores(_, _, element) => self.writing(scene, element),
            OperandFrame::Combines(c, element) => self.compound(scene, c, element, found),
            OperandFrame::Signs(_, op, ty) => {
                if is_refused_sign(*op, *ty, found) {
                    self.values = Some(Values::Negated(found));
                }
            }
            OperandFrame::Applies(_, op, ty, left) => self.operation(*op, *ty, *left, found),
            OperandFrame::NumberPassed(_, asked) => self.coming = asked.at,
            _ => {}
        }
    }

    /// A call without arguments may come next.
    fn begin_value(&mut self, value: &Value) {
        if let Value::Call(at, _, _, _, _) = value {
            self.coming = *at;
        }
    }

    /// A function is entered.
    fn enter(&mut self, function: usize) {
        let coming = self.coming;
        if let Some(caller) = self.calls.last_mut() {
            caller.at = coming;
        }
        let call = ActiveCall {
            function,
            at: NOWHERE,
        };
        if self.calls.push(call).is_err() {
            self.has_memory = false;
        }
    }
}

/// An element by the name of its array and its index, or the name of an object that is no array.
fn element_of(
    alloc: Global,
    names: &ProgramNames,
    function: usize,
    scene: &Scene,
    element: &Reference,
) -> Result<Values, AllocError> {
    let text = names.text(alloc, function, scene, element)?;
    match element.path.subscripts().last() {
        None => Ok(Values::Whole(text)),
        Some(index) => Ok(Values::Element(array_of(alloc, text.as_str())?, *index)),
    }
}

/// The name of an element without its last subscript.
fn array_of(alloc: Global, element: &str) -> Result<String, AllocError> {
    match element.rsplit_once('[') {
        Some((array, _)) => String::from_str(alloc, array),
        None => String::from_str(alloc, element),
    }
}

impl Observer for Following {
    fn wants_ticks(&self) -> bool {
        true
    }

    fn begins(&mut self, node: &Node<'_>, _scene: &Scene) {
        match node {
            Node::Value(value) => self.begin_value(value),
            Node::Initialiser(Initialiser::One(_, value), _, _, _) => self.begin_value(value),
            _ => {}
        }
    }

    fn finds(&mut self, frame: &Frame<'_>, found: &Found, scene: &Scene) {
        match found {
            Found::Place(place) => {
                if let Frame::Place(frame) = frame {
                    self.place_found(frame, scene, place);
                }
            }
            Found::Value(value) => {
                if let Frame::Operand(frame) = frame {
                    self.operand_found(frame, scene, *value);
                }
            }
            Found::Flow(_) => {
                if let Frame::Flow(FlowFrame::Returns(_)) = frame {
                    let _ended = self.calls.pop();
                }
            }
            Found::Initialised => {}
        }
    }

    fn enters(&mut self, function: usize, _passed: &[Passed], _scene: &Scene) {
        self.enter(function);
    }

    fn calls(&mut self, _function: usize) {}

    fn ends(&mut self) {}

    fn gets(&mut self, _byte: Option<u8>) {}

    fn puts(&mut self, _byte: u8) {}
}
