//! Laws of the file, each the contract of a function without code.

ghost use Rattle.elf_out.specs.Laws.{WrittenIsRead};

/// The image of a written file is the intended memory.
pub fn written_is_read()
    ensures { WrittenIsRead }
{}
