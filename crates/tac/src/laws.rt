//! Laws of functions that are made one by one, each the contract of a function without code.

ghost use Rattle.tac.specs.layer.Functions.{FunctionIsCode, FunctionsAreCode};

/// A function is code in each program whose functions have as many parameters.
pub fn function_is_code()
    ensures { FunctionIsCode }
{}

/// All functions of a program, made one by one, are its code.
pub fn functions_are_code()
    ensures { FunctionsAreCode }
{}
