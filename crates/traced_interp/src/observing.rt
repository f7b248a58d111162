//! The notifications from the run to the trace.

use crate::telling::Trace;
use cabs::Observer;
use interp_store::frames::{
    ControlFrame, Found, Frame, InitialiserFrame, Node, OperandFrame, Passed, PlaceFrame,
};
use interp_store::scene::Scene;
use std::io::Write;

/// Whether a value is found that counts as false.
fn is_false(found: &Found) -> bool {
    match found {
        Found::Value(value) => *value == 0,
        Found::Place(_) | Found::Flow(_) | Found::Initialised => false,
    }
}

impl<'a, W: Write + Drop> Observer for Trace<'a, W> {
    fn wants_ticks(&self) -> bool {
        true
    }

    fn begins(&mut self, node: &Node<'_>, _scene: &Scene) {
        self.count_tick();
        if let Node::Statement(_, statement) = node {
            self.begin(statement);
        }
    }

    fn finds(&mut self, frame: &Frame<'_>, found: &Found, scene: &Scene) {
        match frame {
            Frame::Place(PlaceFrame::Steps(step)) => {
                if let Found::Place(element) = found {
                    self.expect(step.at, element);
                }
            }
            Frame::Operand(OperandFrame::Stores(at, _, element)) => self.expect(*at, element),
            Frame::Operand(OperandFrame::Combines(c, element)) => self.expect(c.at, element),
            Frame::Control(ControlFrame::Tests(_)) => {
                if is_false(found) {
                    self.close_loop();
                }
            }
            Frame::Flow(frame) => self.flow_found(frame, found),
            Frame::Initialiser(InitialiserFrame::Defined) => self.tell_first(scene),
            _ => {}
        }
    }

    fn has_done(&mut self, scene: &Scene) {
        self.tell_pending(scene);
    }

    fn enters(&mut self, function: usize, passed: &[Passed], scene: &Scene) {
        self.enter(function, passed, scene);
    }

    fn calls(&mut self, _function: usize) {}

    fn ends(&mut self) {}

    fn gets(&mut self, byte: Option<u8>) {
        self.tell_got(byte);
    }

    fn puts(&mut self, byte: u8) {
        self.tell_put(byte);
    }
}
