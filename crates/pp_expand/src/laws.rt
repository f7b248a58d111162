//! Laws of expansions, each the contract of a function without code.

ghost use Rattle.pp_expand.specs.Laws.{PullsFirst, KnowsGrows, LeftGrows, BoundSuffices, PullBoundSuffices, BudgetSuffices};

/// A pulled token, followed by the expansion of the list left after it, is the expansion of the list, replacements
/// counted on; and where none is pulled, that expansion is empty.
pub fn pulls_first()
    ensures { PullsFirst }
{}

/// The facts known of a list left stay true when the table gains names.
pub fn knows_grows()
    ensures { KnowsGrows }
{}

/// And the list left is the same.
pub fn left_grows()
    ensures { LeftGrows }
{}

/// A greater bound of the definition's recursion than that of the replacements left changes no expansion.
pub fn bound_suffices()
    ensures { BoundSuffices }
{}

/// Nor does it change the pulled token.
pub fn pull_bound_suffices()
    ensures { PullBoundSuffices }
{}

/// A larger budget changes no expansion that a smaller one suffices for, and what it is larger by is left.
pub fn budget_suffices()
    ensures { BudgetSuffices }
{}
