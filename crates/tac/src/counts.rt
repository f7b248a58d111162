//! How many temporaries and slots code names.

ghost use Rattle.std.specs.Prelude.{◌≡◌, suc, max, map};
ghost use Rattle.lower_correct.specs.Bodies as relation;
ghost use Rattle.typed_ast.specs.View.{function_of};
ghost use Rattle.tac.specs.layer.Functions.{parameters_at, temporaries_with};
ghost use Rattle.tac.specs.inside.Few.{Few, FewIn, FewTo, FewAt, FewOf, AreFew};

use tac_code::{Instruction, Operand, Place, Target};
use typed_ast::Function;

fn greater(a: usize, b: usize) -> usize
    ensures { result ≡ max a b }
{
    a.max(b)
}

/// How many there are up to the one of this number.
fn one_more(number: usize) -> usize
    requires { Few number }
    ensures { result ≡ suc number }
{
    number + 1
}

// ---- temporaries

fn temporary_in(operand: Operand) -> usize
    requires { FewIn operand }
    ensures { result ≡ relation.temporary_in operand }
{
    match operand {
        Operand::Temporary(number) => one_more(number),
        Operand::Kept(_) => 0,
        Operand::Object(_) => 0,
        Operand::Parameter(_) => 0,
        Operand::Constant(_) => 0,
    }
}

fn temporary_to(target: Target) -> usize
    requires { FewTo target }
    ensures { result ≡ relation.temporary_to target }
{
    match target {
        Target::Temporary(number) => one_more(number),
        Target::Kept(_) => 0,
        Target::Object(_) => 0,
    }
}

fn temporaries_in(left: Operand, right: Operand) -> usize
    requires { FewIn left × FewIn right }
    ensures { result ≡ max (relation.temporary_in left) (relation.temporary_in right) }
{
    let first = temporary_in(left);
    let second = temporary_in(right);
    greater(first, second)
}

fn temporaries_between(target: Target, source: Operand) -> usize
    requires { FewTo target × FewIn source }
    ensures { result ≡ max (relation.temporary_to target) (relation.temporary_in source) }
{
    let first = temporary_to(target);
    let second = temporary_in(source);
    greater(first, second)
}

fn temporaries_among(target: Target, left: Operand, right: Operand) -> usize
    requires { FewTo target × FewIn left × FewIn right }
    ensures { result ≡ max (relation.temporary_to target) (max (relation.temporary_in left) (relation.temporary_in right)) }
{
    let first = temporary_to(target);
    let second = temporaries_in(left, right);
    greater(first, second)
}

fn temporary_at(spot: Place) -> usize
    requires { FewAt spot }
    ensures { result ≡ relation.temporary_at spot }
{
    match spot {
        Place::Literal(_) => 0,
        Place::Static(_) => 0,
        Place::Array(_) => 0,
        Place::Element { .. } => 0,
        Place::At(operand) => temporary_in(operand),
    }
}

fn temporaries_towards(target: Target, spot: Place) -> usize
    requires { FewTo target × FewAt spot }
    ensures { result ≡ max (relation.temporary_to target) (relation.temporary_at spot) }
{
    let first = temporary_to(target);
    let second = temporary_at(spot);
    greater(first, second)
}

fn temporaries_from(source: Operand, spot: Place) -> usize
    requires { FewIn source × FewAt spot }
    ensures { result ≡ max (relation.temporary_in source) (relation.temporary_at spot) }
{
    let first = temporary_in(source);
    let second = temporary_at(spot);
    greater(first, second)
}

fn parameters_of(functions: &[Function], number: usize) -> usize
    ensures { result ≡ parameters_at (map function_of functions.now) number }
{
    match functions.get(number) {
        None => 0,
        Some(function) => function.function_type.parameters.len(),
    }
}

fn temporaries_of(functions: &[Function], instruction: Instruction) -> usize
    requires { FewOf instruction }
    ensures { result ≡ temporaries_with (parameters_at (map function_of functions.now)) instruction }
{
    match instruction {
        Instruction::Nothing => 0,
        Instruction::Move { target, source } => temporaries_between(target, source),
        Instruction::Compute {
            operation: _,
            reading: _,
            target,
            left,
            right,
        } => temporaries_among(target, left, right),
        Instruction::Convert {
            to: _,
            target,
            source,
        } => temporaries_between(target, source),
        Instruction::Load {
            element: _,
            target,
            from,
        } => temporaries_towards(target, from),
        Instruction::Store {
            element: _,
            source,
            to,
        } => temporaries_from(source, to),
        Instruction::Address { target, of } => temporaries_towards(target, of),
        Instruction::Part {
            target,
            array,
            index,
            size: _,
        } => temporaries_among(target, array, index),
        Instruction::Element {
            element: _,
            target,
            from,
            count,
        } => temporaries_among(target, from, count),
        Instruction::Forget { first: _, count: _ } => 0,
        Instruction::Jump(_) => 0,
        Instruction::Branch {
            comparison: _,
            reading: _,
            left,
            right,
            to: _,
        } => temporaries_in(left, right),
        Instruction::Call(number) => greater(1, parameters_of(functions, number)),
        Instruction::PutByte => 1,
        Instruction::GetByte => 1,
        Instruction::Exit => 1,
        Instruction::Return => 1,
    }
}

/// The most temporaries that an instruction needs, a function of the program having as many parameters as its source has.
pub(crate) fn most_temporaries(functions: &[Function], code: &[Instruction]) -> usize
    requires { AreFew code.now }
    ensures { result ≡ relation.most (temporaries_with (parameters_at (map function_of functions.now))) code.now }
{
    let mut most = 0;
    for instruction in code {
        most = greater(most, temporaries_of(functions, *instruction));
    }
    most
}

// ---- slots

fn kept_in(operand: Operand) -> usize
    requires { FewIn operand }
    ensures { result ≡ relation.kept_in operand }
{
    match operand {
        Operand::Temporary(_) => 0,
        Operand::Kept(number) => one_more(number),
        Operand::Object(_) => 0,
        Operand::Parameter(_) => 0,
        Operand::Constant(_) => 0,
    }
}

fn kept_to(target: Target) -> usize
    requires { FewTo target }
    ensures { result ≡ relation.kept_to target }
{
    match target {
        Target::Temporary(_) => 0,
        Target::Kept(number) => one_more(number),
        Target::Object(_) => 0,
    }
}

fn slots_in(left: Operand, right: Operand) -> usize
    requires { FewIn left × FewIn right }
    ensures { result ≡ max (relation.kept_in left) (relation.kept_in right) }
{
    let first = kept_in(left);
    let second = kept_in(right);
    greater(first, second)
}

fn slots_between(target: Target, source: Operand) -> usize
    requires { FewTo target × FewIn source }
    ensures { result ≡ max (relation.kept_to target) (relation.kept_in source) }
{
    let first = kept_to(target);
    let second = kept_in(source);
    greater(first, second)
}

fn slots_among(target: Target, left: Operand, right: Operand) -> usize
    requires { FewTo target × FewIn left × FewIn right }
    ensures { result ≡ max (relation.kept_to target) (max (relation.kept_in left) (relation.kept_in right)) }
{
    let first = kept_to(target);
    let second = slots_in(left, right);
    greater(first, second)
}

fn kept_at(spot: Place) -> usize
    requires { FewAt spot }
    ensures { result ≡ relation.kept_at spot }
{
    match spot {
        Place::Literal(_) => 0,
        Place::Static(_) => 0,
        Place::Array(_) => 0,
        Place::Element { .. } => 0,
        Place::At(operand) => kept_in(operand),
    }
}

fn slots_towards(target: Target, spot: Place) -> usize
    requires { FewTo target × FewAt spot }
    ensures { result ≡ max (relation.kept_to target) (relation.kept_at spot) }
{
    let first = kept_to(target);
    let second = kept_at(spot);
    greater(first, second)
}

fn slots_from(source: Operand, spot: Place) -> usize
    requires { FewIn source × FewAt spot }
    ensures { result ≡ max (relation.kept_in source) (relation.kept_at spot) }
{
    let first = kept_in(source);
    let second = kept_at(spot);
    greater(first, second)
}

fn slots_of(instruction: Instruction) -> usize
    requires { FewOf instruction }
    ensures { result ≡ relation.slots_of instruction }
{
    match instruction {
        Instruction::Nothing => 0,
        Instruction::Move { target, source } => slots_between(target, source),
        Instruction::Compute {
            operation: _,
            reading: _,
            target,
            left,
            right,
        } => slots_among(target, left, right),
        Instruction::Convert {
            to: _,
            target,
            source,
        } => slots_between(target, source),
        Instruction::Load {
            element: _,
            target,
            from,
        } => slots_towards(target, from),
        Instruction::Store {
            element: _,
            source,
            to,
        } => slots_from(source, to),
        Instruction::Address { target, of } => slots_towards(target, of),
        Instruction::Part {
            target,
            array,
            index,
            size: _,
        } => slots_among(target, array, index),
        Instruction::Element {
            element: _,
            target,
            from,
            count,
        } => slots_among(target, from, count),
        Instruction::Forget { first: _, count: _ } => 0,
        Instruction::Jump(_) => 0,
        Instruction::Branch {
            comparison: _,
            reading: _,
            left,
            right,
            to: _,
        } => slots_in(left, right),
        Instruction::Call(_) => 0,
        Instruction::PutByte => 0,
        Instruction::GetByte => 0,
        Instruction::Exit => 0,
        Instruction::Return => 0,
    }
}

/// The most slots that an instruction needs.
pub(crate) fn most_slots(code: &[Instruction]) -> usize
    requires { AreFew code.now }
    ensures { result ≡ relation.most relation.slots_of code.now }
{
    let mut most = 0;
    for instruction in code {
        most = greater(most, slots_of(*instruction));
    }
    most
}
