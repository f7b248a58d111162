//! The types and values of constant expressions.

use crate::arithmetic::int_type;
use crate::scanned::{file_names, show_line};
use crate::tokens::read;
use const_expr::value;
use parser::parse;
use srcset::{Fault, Names};
use std::alloc::Global;
use test_rows::{Answer, Fields, Words};
use tree::{Declaration, Expr, External, Specifier, Unit};
use typed_ast::{DeclaredType, ObjectType, Storage};
use typing_scopes::{Linkage, Meaning, Scope, State};

/// An object of a type's letter and the lengths after it. Its storage does not matter to a constant expression.
fn object(alloc: Global, words: &mut Words<'_>, answer: &mut Answer) -> Meaning {
    let letter = words.word();
    let mut lengths = Vec::new(alloc);
    for _ in 0..8 {
        if words.is_over() {
            break;
        }
        if lengths
            .push(u32::try_from(words.number()).unwrap_or(0))
            .is_err()
        {
            answer.fail();
        }
    }
    let object_type = ObjectType {
        element: int_type(*letter.first().unwrap_or(&0)),
        constant: false,
        lengths,
    };
    Meaning::Object(Storage::Static(0), DeclaredType::Complete(object_type))
}

/// Enters `NAME value NUMBER`, `NAME tag` or `NAME object LETTER LENGTH ..`.
fn enter(names: &mut Names, scope: &mut Scope, field: &[u8], answer: &mut Answer) {
    let mut words = Words::new(field, b' ');
    let Ok(name) = names.intern(words.word()) else {
        answer.fail();
        return;
    };
    let entered = match words.word() {
        [b'v', ..] => scope.with_name(
            name,
            Meaning::Enumerator(words.number()),
            Linkage::External,
            State::Tentative,
        ),
        [b't', ..] => scope.with_tag(name, true),
        _ => {
            let meaning = object(answer.alloc(), &mut words, answer);
            scope.with_name(name, meaning, Linkage::External, State::Tentative)
        }
    };
    if entered.is_err() {
        answer.fail();
    }
}

/// The expression of a unit's first enumerator.
fn first_expression(unit: &Unit) -> Option<&Expr> {
    let External::Declaration(Declaration::Declared(specifiers, _)) = unit.externals.first()? else {
        return None;
    };
    let Specifier::Enumerators(_, list) = specifiers.list.first()? else {
        return None;
    };
    list.first()?.value.as_ref()
}

/// The tree of a source.
fn unit_of(alloc: Global, source: &[u8], names: &mut Names) -> Result<Unit, Fault> {
    match read(alloc, source, names) {
        Ok(tokens) => parse(alloc, tokens.as_slice(), names),
        Err(fault) => Err(fault),
    }
}

fn show_value(unit: &Unit, scope: &Scope, names: &Names, answer: &mut Answer) {
    let Some(expression) = first_expression(unit) else {
        return;
    };
    match value(answer.alloc(), expression, scope, names) {
        Ok((of, value)) => {
            answer.debug(&of);
            answer.write(b" ");
            answer.show(&value);
        }
        Err(fault) => show_line(&fault, answer),
    }
}

/// `constant SOURCE NAME NAME ..`: the type and the value of the expression in `enum { e = EXPRESSION };`, where these names are declared.
pub fn constant(row: &Fields, answer: &mut Answer) {
    let alloc = answer.alloc();
    let mut names = file_names(alloc);
    let Ok(mut scope) = Scope::file(alloc, Vec::new(alloc)) else {
        answer.fail();
        return;
    };
    for at in 2..row.count() {
        enter(&mut names, &mut scope, row.field(at), answer);
    }
    match unit_of(alloc, row.field(1), &mut names) {
        Ok(unit) => show_value(&unit, &scope, &names, answer),
        Err(fault) => show_line(&fault, answer),
    }
}
