//! One command's form, made from its table.

use crate::table::{Kind, Row};
use clap::{Arg, ArgAction, Command, value_parser};
use std::alloc::{AllocError, Global};

/// One command with its arguments.
pub fn form<'a>(
    alloc: Global,
    name: &'static str,
    about: &'static str,
    rows: &[Row],
) -> Result<Command<'a>, AllocError> {
    let mut command = Command::new(alloc, name).about(about);
    for row in rows {
        command = command.arg(argument(alloc, row)?)?;
    }
    Ok(command)
}

/// One argument.
fn argument<'a>(alloc: Global, row: &Row) -> Result<Arg<'a>, AllocError> {
    named(
        read_as(Arg::new(alloc, row.id).help(row.help), row.kind),
        row,
    )
    .conflicts_with_all(row.apart)
}

/// The argument with its names and its default.
fn named<'a>(arg: Arg<'a>, row: &Row) -> Arg<'a> {
    let mut arg = arg;
    if let Some(short) = row.short {
        arg = arg.short(short);
    }
    if let Some(long) = row.long {
        arg = arg.long(long);
    }
    if let Some(value) = row.value {
        arg = arg.value_name(value);
    }
    if let Some(default) = row.default {
        arg = arg.default_value(default);
    }
    arg
}

/// The argument, read as its kind says.
fn read_as<'a>(arg: Arg<'a>, kind: Kind) -> Arg<'a> {
    match kind {
        Kind::Place => arg.required(true),
        Kind::Places => arg.action(ArgAction::Append).num_args(0..),
        Kind::Choice(values) => arg.value_parser(values).required(true),
        Kind::Flag => arg.action(ArgAction::SetTrue),
        Kind::Text => arg,
        Kind::Texts => arg.action(ArgAction::Append),
        Kind::Hidden => arg.action(ArgAction::Append).hide(true),
        Kind::List => arg.action(ArgAction::Append).num_args(1..),
        Kind::Number(least, most) => arg.value_parser(value_parser!(u64).range(least..=most)),
        Kind::One(values) => arg.value_parser(values),
    }
}
