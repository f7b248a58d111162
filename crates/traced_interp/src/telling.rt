//! An observer that writes the events it receives.

use crate::calls::{Calls, Defined};
use crate::lines::SourceLines;
use crate::parts::{Parts, first_parts};
use crate::places::place_of;
use crate::wording::{TraceForm, begun, entered, further, got, left, put, set};
use interp_store::Reference;
use interp_store::frames::{Flow, FlowFrame, Found, Passed};
use interp_store::scene::Scene;
use object_names::{ProgramNames, shown_name};
use srcset::{Names, Pos, write_text};
use std::alloc::{AllocError, Global};
use std::io::Write;
use typed_ast::{Statement, Value};

/// An element that is to get a value, and the place of the assignment.
#[derive(Drop)]
struct Pending {
    at: Pos,
    element: Reference,
}

/// How the writing of a trace ended.
#[derive(Clone, Copy, Debug, PartialEq, Eq)]
pub struct Written {
    /// Whether the whole trace was written.
    pub is_whole: bool,
    /// Whether there was memory for the whole trace.
    pub has_memory: bool,
}

/// An observer that writes to a writer each statement with its line, each object that gets a value, each function that is entered and left.
#[derive(Drop)]
pub struct Trace<'a, W: Write + Drop> {
    alloc: Global,
    names: &'a Names,
    objects: ProgramNames,
    lines: SourceLines,
    form: TraceForm,
    out: W,
    calls: Calls,
    pending: Option<Pending>,
    // The tick that the run has reached, counted from 1, and the tick from which on it is traced.
    tick: u64,
    from: u64,
    // The line that was reported last, where nothing was reported after it.
    last: Option<Pos>,
    is_whole: bool,
    has_memory: bool,
}

impl<'a, W: Write + Drop> Trace<'a, W> {
    /// A trace to a writer, in a form, of a program with these names, objects and source lines.
    pub fn new(
        alloc: Global,
        names: &'a Names,
        objects: ProgramNames,
        lines: SourceLines,
        form: TraceForm,
        out: W,
    ) -> Self {
        Trace {
            alloc,
            names,
            objects,
            lines,
            form,
            out,
            calls: Calls::new(alloc),
            pending: None,
            tick: 0,
            from: 0,
            last: None,
            is_whole: true,
            has_memory: true,
        }
    }

    /// The same trace without the events before this tick. Events before the first tick belong to tick 0.
    pub fn since(self, from: u64) -> Self {
        let mut trace = self;
        trace.from = from;
        trace
    }

    /// Flushes the writer. Returns whether the whole trace was written, and whether there was memory for it.
    pub fn finish(self) -> Written {
        let (written, _out) = self.into_writer();
        written
    }

    /// The same, and the writer.
    pub fn into_writer(self) -> (Written, W) {
        let mut out = self.out;
        let is_flushed = out.flush().is_ok();
        let written = Written {
            is_whole: self.is_whole && is_flushed,
            has_memory: self.has_memory,
        };
        (written, out)
    }

    /// The next tick begins.
    pub(crate) fn count_tick(&mut self) {
        self.tick = self.tick.saturating_add(1);
    }

    /// Whether the next event is left out: it is of an earlier tick than those traced, or the trace has ended.
    fn leaves_out(&mut self) -> bool {
        if self.tick < self.from {
            self.last = None;
            return true;
        }
        !self.is_whole
    }

    /// Memory ran out: the trace ends.
    fn refuse(&mut self) {
        self.is_whole = false;
        self.has_memory = false;
    }

    /// Writes a text. At the first one that cannot be written the trace ends.
    fn write(&mut self, text: Result<String, AllocError>) {
        if !self.is_whole {
            return;
        }
        self.last = None;
        match text {
            Ok(text) => {
                if !write_text(&mut self.out, text.as_bytes()) {
                    self.is_whole = false;
                }
            }
            Err(_) => self.refuse(),
        }
    }

    /// Reports a line, unless that was reported last.
    fn tell_line(&mut self, at: Pos) {
        if self.last == Some(at) {
            return;
        }
        if !self.leaves_out() {
            let file = self.names.file_name(at.file);
            let source = self.lines.line(file, at.line);
            let text = begun(self.alloc, self.form, file, at.line, source);
            self.write(text);
        }
        self.last = Some(at);
        self.calls.tell(at);
    }

    /// Reports a line, unless it is the last one that was reported of the present call.
    fn tell_place(&mut self, at: Pos) {
        if !self.calls.has_told(at) {
            self.tell_line(at);
        }
    }

    /// Reports the value of an element.
    fn tell_value(&mut self, scene: &Scene, element: &Reference) {
        let Some(value) = scene.store.value(element) else {
            return;
        };
        if self.leaves_out() {
            return;
        }
        let text = self.value_text(scene, element, value);
        self.write(text);
    }

    fn value_text(
        &self,
        scene: &Scene,
        element: &Reference,
        value: i64,
    ) -> Result<String, AllocError> {
        let found = self
            .objects
            .designated(self.calls.function(), scene, element);
        let subscripts = element.path.subscripts();
        let path = subscripts.get(found.skipped..).unwrap_or_default();
        if found.name.is_empty() {
            let name = shown_name(self.alloc, "", element.object())?;
            return set(self.alloc, self.form, name.as_str(), path, value);
        }
        set(self.alloc, self.form, found.name, path, value)
    }

    /// A function is entered.
    pub(crate) fn enter(&mut self, function: usize, passed: &[Passed], scene: &Scene) {
        if !self.leaves_out() {
            let text = entered(self.alloc, self.form, self.objects.function(function));
            self.write(text);
        }
        if self.calls.push(function).is_err() {
            self.refuse();
        }
        let mut object = scene.base;
        for one in passed {
            if let Passed::Number(_) = one {
                self.tell_value(scene, &Reference::whole(object));
                object = object.saturating_add(1);
            }
        }
    }

    /// The present call ends.
    fn leave(&mut self, is_main: bool, flow: Flow) {
        let Some(function) = self.calls.pop() else {
            return;
        };
        if self.leaves_out() {
            return;
        }
        let name = self.objects.function(function);
        let text = left(self.alloc, self.form, name, value_left(is_main, flow));
        self.write(text);
    }

    /// A statement begins. Those that only contain or precede others are not reported; of the declarators of a line one is.
    pub(crate) fn begin(&mut self, statement: &Statement) {
        match statement {
            Statement::Empty(_) | Statement::Block(_, _, _, _) => {}
            Statement::Case(_, _) | Statement::Default(_) => {}
            Statement::While(at, _, _) | Statement::For(at, _, _, _) => {
                self.tell_line(*at);
                self.open_loop(*at);
            }
            Statement::DoWhile(at, _, test) => {
                self.tell_line(*at);
                self.open_loop(test_place(*at, test));
            }
            Statement::Declare(at, _) => self.tell_place(*at),
            Statement::Define(at, object, _) => {
                self.tell_place(*at);
                self.calls.define(*at, *object);
            }
            _ => self.tell_line(statement.place()),
        }
    }

    /// A loop begins, with this place to report as it continues.
    fn open_loop(&mut self, at: Pos) {
        if self.calls.open_loop(at).is_err() {
            self.refuse();
        }
    }

    /// The innermost loop continues.
    fn continue_loop(&mut self) {
        if let Some(at) = self.calls.loop_place() {
            self.tell_line(at);
        }
    }

    /// The innermost loop ends.
    pub(crate) fn close_loop(&mut self) {
        self.calls.close_loop();
    }

    /// A turn of the innermost loop ends so.
    fn end_turn(&mut self, flow: Flow) {
        match flow {
            Flow::Normal | Flow::Continued => self.continue_loop(),
            Flow::Broken | Flow::Returned(_) => self.close_loop(),
        }
    }

    /// The object that was to get its first value has received it.
    pub(crate) fn tell_first(&mut self, scene: &Scene) {
        let Some(defined) = self.calls.defined() else {
            return;
        };
        let first = scene.base.saturating_add(defined.object);
        let parts = match self.objects.object(self.calls.function(), defined.object) {
            Some(object) => first_parts(self.alloc, first, object.lengths.as_slice()),
            None => return,
        };
        match parts {
            Ok(parts) => self.tell_parts(scene, defined, &parts),
            Err(_) => self.refuse(),
        }
    }

    fn tell_parts(&mut self, scene: &Scene, defined: Defined, parts: &Parts) {
        self.tell_place(defined.at);
        for element in &parts.list {
            self.tell_value(scene, element);
        }
        if parts.has_more {
            self.tell_further(defined.object);
        }
    }

    fn tell_further(&mut self, object: usize) {
        if self.leaves_out() {
            return;
        }
        let name = self.objects.object_name(self.calls.function(), object);
        let text = further(self.alloc, self.form, name);
        self.write(text);
    }

    /// A byte was read, or the end of the input was reached.
    pub(crate) fn tell_got(&mut self, byte: Option<u8>) {
        if self.form == TraceForm::Json && !self.leaves_out() {
            let text = got(self.alloc, byte);
            self.write(text);
        }
    }

    /// A byte is written.
    pub(crate) fn tell_put(&mut self, byte: u8) {
        if self.form == TraceForm::Json && !self.leaves_out() {
            let text = put(self.alloc, byte);
            self.write(text);
        }
    }

    /// The pending element has received its value.
    pub(crate) fn tell_pending(&mut self, scene: &Scene) {
        if let Some(pending) = self.pending.take() {
            self.tell_place(pending.at);
            self.tell_value(scene, &pending.element);
        }
    }

    /// An element is to get a value.
    pub(crate) fn expect(&mut self, at: Pos, element: &Reference) {
        match element.copied(self.alloc) {
            Ok(element) => self.pending = Some(Pending { at, element }),
            Err(_) => self.refuse(),
        }
    }

    /// A statement, or the test of a loop, has ended with this result.
    pub(crate) fn flow_found(&mut self, frame: &FlowFrame<'_>, found: &Found) {
        let Found::Flow(flow) = found else {
            return;
        };
        match frame {
            FlowFrame::Returns(back) => self.leave(back.is_main, *flow),
            FlowFrame::Turn(_) => self.end_turn(*flow),
            FlowFrame::Rest(_, _) | FlowFrame::InSwitch | FlowFrame::ForStarts(_, _) => {}
        }
    }
}

/// The value of a call whose body is left so; that of `main` is 0 where it has none of its own (5.1.2.2.3p1).
fn value_left(is_main: bool, flow: Flow) -> Option<i64> {
    match flow {
        Flow::Returned(value) => value,
        Flow::Normal | Flow::Broken | Flow::Continued => if is_main { Some(0) } else { None },
    }
}

/// The place of the test of a `do`, which begins at `at`.
fn test_place(at: Pos, test: &Value) -> Pos {
    match place_of(test) {
        Some(place) => place,
        None => at,
    }
}
