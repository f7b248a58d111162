//! Laws of the definitions. The functions here do nothing: each has a contract so that its laws are proved.

ghost use Rattle.lexer.specs.Laws.{FaultStays, ToldStays, FinishedStay, ReadIsKept, ReadIsTakenUp};

/// The fault of the first tokens is the fault of all (`fault`), also as a reported error (`told`). The finished C
/// tokens of the first tokens are the first C tokens of all (`finished`).
pub fn a_front()
    ensures fault { FaultStays }
    ensures told { ToldStays }
    ensures finished { FinishedStay }
{}

/// The tokens that a lexer has read stay read under a table that has gained other texts (`kept`), and a table under which it
/// has read tokens has their texts already (`taken_up`).
pub fn what_is_read()
    ensures kept { ReadIsKept }
    ensures taken_up { ReadIsTakenUp }
{}
