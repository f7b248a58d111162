//! A law of the grammar, for proofs of the layers above. The function does nothing: it has a contract so that the law is
//! proved.
ghost use Rattle.phases.specs.Kinds.{KindsExclude};

/// No text is of two of the kinds identifier, number, character constant, string literal and punctuator (ISO/IEC 9899:2011
/// 6.4), so `token_kind` may test for them in any order.
pub fn kinds_exclude()
    ensures { KindsExclude }
{}
