//! The kinds of warnings.

/// The kind of a warning. docs/DIAGNOSTICS.md has a section for each.
#[derive(Clone, Copy, Debug, PartialEq, Eq)]
pub enum Kind {
    UnusedVariable,
    UnusedButSetVariable,
    UnusedParameter,
    UnusedButSetParameter,
    UnusedFunction,
    UnusedValue,
    UnusedResult,
    Parentheses,
    ChainedComparison,
    EmptyBody,
    ImplicitFallthrough,
    Shadow,
    StaticInTwoFiles,
    ReturnType,
    MaybeUninitialized,
    ArrayBounds,
    TypeLimits,
    MacroParentheses,
}

/// All kinds, in the order of docs/DIAGNOSTICS.md.
const KINDS: &[Kind] = &[
    Kind::UnusedVariable,
    Kind::UnusedButSetVariable,
    Kind::UnusedParameter,
    Kind::UnusedButSetParameter,
    Kind::UnusedFunction,
    Kind::UnusedValue,
    Kind::UnusedResult,
    Kind::Parentheses,
    Kind::ChainedComparison,
    Kind::EmptyBody,
    Kind::ImplicitFallthrough,
    Kind::Shadow,
    Kind::StaticInTwoFiles,
    Kind::ReturnType,
    Kind::MaybeUninitialized,
    Kind::ArrayBounds,
    Kind::TypeLimits,
    Kind::MacroParentheses,
];

impl Kind {
    /// All kinds, in the order of docs/DIAGNOSTICS.md.
    pub fn all() -> &'static [Kind] {
        KINDS
    }

    /// The name of the kind, which is gcc's where gcc has one.
    pub fn name(self) -> &'static str {
        match self {
            Kind::UnusedVariable => "unused-variable",
            Kind::UnusedButSetVariable => "unused-but-set-variable",
            Kind::UnusedParameter => "unused-parameter",
            Kind::UnusedButSetParameter => "unused-but-set-parameter",
            Kind::UnusedFunction => "unused-function",
            Kind::UnusedValue => "unused-value",
            Kind::UnusedResult => "unused-result",
            Kind::Parentheses => "parentheses",
            Kind::ChainedComparison => "chained-comparison",
            Kind::EmptyBody => "empty-body",
            Kind::ImplicitFallthrough => "implicit-fallthrough",
            Kind::Shadow => "shadow",
            Kind::StaticInTwoFiles => "static-in-two-files",
            Kind::ReturnType => "return-type",
            Kind::MaybeUninitialized => "maybe-uninitialized",
            Kind::ArrayBounds => "array-bounds",
            Kind::TypeLimits => "type-limits",
            Kind::MacroParentheses => "macro-parentheses",
        }
    }

    /// The text of a warning of this kind.
    pub fn text(self) -> &'static str {
        match self {
            Kind::UnusedVariable => "object is never used",
            Kind::UnusedButSetVariable => "object is set, but its value is never used",
            Kind::UnusedParameter => "parameter is never used",
            Kind::UnusedButSetParameter => "parameter is set, but its value is never used",
            Kind::UnusedFunction => "static function is never called",
            Kind::UnusedValue => "statement without effect: its value is not used",
            Kind::UnusedResult => "call without effect: its result is not used",
            Kind::Parentheses => "assignment as a condition",
            Kind::ChainedComparison => "comparison of a comparison's result",
            Kind::EmptyBody => "empty body",
            Kind::ImplicitFallthrough => "the statements before fall through to this label",
            Kind::Shadow => "declaration hides an earlier one",
            Kind::StaticInTwoFiles => "one static object is declared in two files",
            Kind::ReturnType => "function may end without returning a value",
            Kind::MaybeUninitialized => "object may be read before it has a value",
            Kind::ArrayBounds => "index outside the array",
            Kind::TypeLimits => "comparison has the same result for all values of the type",
            Kind::MacroParentheses => "macro needs parentheses",
        }
    }

    /// The text to write instead.
    pub fn help(self) -> &'static str {
        match self {
            Kind::UnusedVariable => "remove it, or use it",
            Kind::UnusedButSetVariable => "remove it and what is assigned to it, or use its value",
            Kind::UnusedParameter | Kind::UnusedButSetParameter => {
                "remove it, or write `(void)NAME;` where the function must have it"
            }
            Kind::UnusedFunction => "remove it, or call it",
            Kind::UnusedValue => "was `=` meant, or a call? A cast to void says that nothing was",
            Kind::UnusedResult => "use the result: the function changes nothing else",
            Kind::Parentheses => "write `==` to compare; extra parentheses say that `=` is meant",
            Kind::ChainedComparison => "write `a < b && b < c`, or parentheses",
            Kind::EmptyBody => "remove the `;`, or write `{ }`",
            Kind::ImplicitFallthrough => "write `break;`, or a comment `/* fall through */`",
            Kind::Shadow => "give one of the two another name",
            Kind::StaticInTwoFiles => {
                "all files are one translation unit: give one of the two another name"
            }
            Kind::ReturnType => "write `return` with a value at the end",
            Kind::MaybeUninitialized => "give it a value where it is declared",
            Kind::ArrayBounds => "indices go from 0 to the number of elements less 1",
            Kind::TypeLimits => "compare in a type that holds both operands' values",
            Kind::MacroParentheses => {
                "write parentheses around each parameter, and around the whole"
            }
        }
    }
}
