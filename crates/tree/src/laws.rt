//! Laws of the definitions, and functions whose counts are known. The functions here do nothing: each has a
//! contract so that its laws are proved.

ghost use Rattle.std.specs.Prelude.{◌≡◌};
ghost use Rattle.srcset.specs.declared.refusal.Pos.{Pos};
ghost use Rattle.tree.specs.Rows.{answer, countdown, padded, nested, HasCounts, ParensAreNoNodes, ParensAreDeep};
ghost use Rattle.tree.specs.Counts.{function_depth};

/// A pair of parentheses is no node (`nodes`), and is one level of the depth (`depth`).
pub fn parentheses()
    ensures nodes { ParensAreNoNodes }
    ensures depth { ParensAreDeep }
{}

/// The nodes and the weight of `int main(void) { return 42; }` (`answer`), of
/// `int f(int n) { if (n == 0) return 0; return f(n - 1); }` (`countdown`), and of
/// `int main(void) { char pad[208]; return f(3447); }` (`padded`); and the depth of a function that returns a
/// constant in 252 pairs of parentheses (`nested`).
pub fn known_counts()
    ensures answer { (p : Pos) → HasCounts (answer p) 4 0 128 }
    ensures countdown { (p : Pos) → HasCounts (countdown p) 14 4 304 }
    ensures padded { (p : Pos) → HasCounts (padded p) 7 208 384 }
    ensures nested { (p : Pos) → function_depth (nested 252 p) ≡ 256 }
{}
