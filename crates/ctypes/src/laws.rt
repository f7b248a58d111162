//! Laws of the definitions, for proofs about code that uses them. The functions do nothing: each
//! has a contract so that its laws are proved. `proofs/Uses.antt` has the laws as lemmas.

ghost use Rattle.ctypes.specs.Laws.{PromotedStays, PromotedHasValues, UsualCommutes, UsualOfSame, UsualIsPromoted, UsualIsByRank, ConvertedFits, ConvertedKeeps, ConvertedIsCongruent, RightFits, ComputedFits, ComputedRefuses, SignedIsExact, ResultIsCongruent, QuotientIsExact, RemainderIsExact, DivisionAddsUp};

/// A promoted type is its own promotion, and has the values of the type that was promoted (6.3.1.1).
pub fn a_promotion()
    ensures stays { PromotedStays }
    ensures values { PromotedHasValues }
{}

/// The common type is the one that rank and signedness give (6.3.1.8p1). It is promoted, does not
/// depend on the order of the two, and of one type twice is its promotion.
pub fn a_common_type()
    ensures by_rank { UsualIsByRank }
    ensures promoted { UsualIsPromoted }
    ensures commutes { UsualCommutes }
    ensures of_same { UsualOfSame }
{}

/// A conversion gives a value of the type (`fits`), which is the number itself where that is one
/// (`keeps`), and else, but for `_Bool`, is equal to it modulo two to the width (`congruent`).
pub fn a_conversion()
    ensures fits { ConvertedFits }
    ensures keeps { ConvertedKeeps }
    ensures congruent { ConvertedIsCongruent }
{}

/// A value of the type may be the right operand of every operator (`right`). A result is a value of
/// its type (`fits`), and an operation without one is U1, U2, U3 or U4 (`refuses`). A sum, difference
/// or product that is defined is the exact one in a signed type (`exact`), and equal to it modulo two
/// to the width in each type but `_Bool` (`congruent`).
pub fn an_operation()
    ensures right { RightFits }
    ensures fits { ComputedFits }
    ensures refuses { ComputedRefuses }
    ensures exact { SignedIsExact }
    ensures congruent { ResultIsCongruent }
{}

/// A quotient and a remainder are those of whole numbers, and `(a / b) * b + a % b` is `a` (6.5.5p6).
pub fn a_division()
    ensures quotient { QuotientIsExact }
    ensures remainder { RemainderIsExact }
    ensures adds_up { DivisionAddsUp }
{}
