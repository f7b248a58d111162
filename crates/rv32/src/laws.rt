//! Laws of the definitions, for proofs about code that runs on this machine. The functions do nothing:
//! each has a contract so that its laws are proved. `proofs/Uses.antt` has the laws as lemmas.

ghost use Rattle.rv32.specs.Laws.{WordIsRead, StepIsInstruction, StepIsRow, StepStays, ReadsWritten, ReadsOther, LoadsStoredByte, LoadsStoredHalf, LoadsStoredWord, ByteKeeps, HalfKeeps, WordKeeps, LoadsKeptByte, LoadsKeptHalf, LoadsKeptWord, FetchesKept, BytesAreApart, HalvesAreApart, WordsAreApart};

/// The word of an instruction is read as that instruction.
pub fn word_is_read()
    ensures { WordIsRead }
{}

/// A step is the instruction whose word is at pc, and one that does not go on leaves the machine.
pub fn step_is_its_instruction()
    ensures instruction { StepIsInstruction }
    ensures row { StepIsRow }
    ensures stays { StepStays }
{}

/// A register that was written reads as the written value, x0 as 0, and every other as before.
pub fn read_after_write()
    ensures written { ReadsWritten }
    ensures other { ReadsOther }
{}

/// A stored value is loaded at the same address.
pub fn load_after_store()
    ensures byte { LoadsStoredByte }
    ensures half { LoadsStoredHalf }
    ensures word { LoadsStoredWord }
{}

/// A store keeps every byte outside it, and loads and fetches of kept bytes are as before.
pub fn load_elsewhere()
    ensures byte_keeps { ByteKeeps }
    ensures half_keeps { HalfKeeps }
    ensures word_keeps { WordKeeps }
    ensures kept_byte { LoadsKeptByte }
    ensures kept_half { LoadsKeptHalf }
    ensures kept_word { LoadsKeptWord }
    ensures kept_fetch { FetchesKept }
{}

/// Accesses of one size at different addresses are apart.
pub fn different_addresses()
    ensures bytes { BytesAreApart }
    ensures halves { HalvesAreApart }
    ensures words { WordsAreApart }
{}
