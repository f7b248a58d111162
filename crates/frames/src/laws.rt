//! Laws of the layout of data and of the results of operations, each the contract of a function without code.

ghost use Rattle.frames.specs.Laws.{WordsAreApart, WordsComeFirst, ReferencesComeNext, SlotsComeLast, ArraysAreApart, ArraysAreInside, StartsAreApart, OperationsAgree, ComparisonsAgree, ConversionsAgree, DataBytesAre, DataHaveTheirSize};

/// Objects that are no arrays, references and slots have words of their own, within those of the frame.
pub fn words_are_apart()
    ensures objects { WordsAreApart }
    ensures first { WordsComeFirst }
    ensures references { ReferencesComeNext }
    ensures slots { SlotsComeLast }
{}

/// Arrays of a call do not overlap, and lie within the bytes of the frame's arrays.
pub fn arrays_are_apart()
    ensures apart { ArraysAreApart }
    ensures inside { ArraysAreInside }
{}

/// String literals do not overlap, nor do objects with static storage.
pub fn starts_are_apart()
    ensures { StartsAreApart }
{}

/// On words, flat code's operations give the results of those of three-address code where these are defined, and its tests hold just
/// where the comparisons do. Its conversions leave the words of the numbers that conversions give.
pub fn words_agree()
    ensures operations { OperationsAgree }
    ensures comparisons { ComparisonsAgree }
    ensures conversions { ConversionsAgree }
{}

/// How many bytes the data have: 16, and those of the literals and of the statics.
pub fn data_have_their_size()
    ensures parts { DataBytesAre }
    ensures whole { DataHaveTheirSize }
{}
