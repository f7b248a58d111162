//! What is promised of a built file, in terms of its observable behaviour. There is nothing to run: each law is the contract of a function without code.
#![tactic(auto)]

ghost use Rattle.cc_laws.specs.Laws.{DoesAll, DoesNoMore, NeverTraps, StaysInside, FilesAreLaidOut, FilesKeepConvention, FilesTouchTheirFrames, FilesStayAbove, FilesTouchNothingBelow, FilesCallAsMeant, EndsOnlySo, UnitsHaveMain, EndsInTime};
ghost use Rattle.cc_laws.specs.Overflow.{FilesGoUpToOverflow};
ghost use Rattle.cc_laws.specs.Frames.{FilesRunWithinFrames};
ghost use Rattle.cc_laws.specs.Inputs.{DoesAllSoFar, ReadsAsItGoes};
ghost use Rattle.cc_laws.specs.Reserved.{FilesLeaveReserved};
ghost use Rattle.cc_laws.specs.Words.{FilesPassWords};

/// What the abstract machine has done within any number of ticks, the file has done after some number of instructions.
pub fn does_all()
    ensures { DoesAll }
{}

/// What the file has done after any number of instructions is a prefix of what the abstract machine does.
pub fn does_no_more()
    ensures { DoesNoMore }
{}

/// The file never traps. So it never fetches outside its text and never stores outside its data and its stack: by the table of instructions, a fetch
/// of a word that is not executable and a store to a byte that is not writable are traps, and by the program headers of a built file only the text
/// is executable, and only the data and the stack are writable.
pub fn never_traps()
    ensures { NeverTraps }
{}

/// At each instruction the word at the pc is executable, and each byte that a store or a read of input writes is writable, by the permissions with
/// which the file was loaded, which no instruction changes.
pub fn stays_inside()
    ensures { StaysInside }
{}

/// In a file made of a program only the text is executable, and only the data and the stack are readable and writable.
pub fn files_are_laid_out()
    ensures { FilesAreLaidOut }
{}

/// In a file made of a program each call, and main, keeps the calling convention: on entry the arguments are where they are passed; while the function
/// runs its frame is below; and after its return the stack pointer and s0 to s11 are as they were, and the result is in a0.
pub fn files_keep_convention()
    ensures { FilesKeepConvention }
{}

/// In a file made of a program no instruction loads or stores in the stack below the lowest frame that its calls have had so far.
pub fn files_touch_their_frames()
    ensures { FilesTouchTheirFrames }
{}

/// In a file made of a program no instruction within a step of its flat code loads or stores in the stack below the stack pointer.
pub fn files_stay_above()
    ensures { FilesStayAbove }
{}

/// In a file made of a program no instruction loads or stores in the stack below the stack pointer that the machine has at this instruction.
pub fn files_touch_nothing_below()
    ensures { FilesTouchNothingBelow }
{}

/// In a file made of a program the calls active at a step of its flat code are those active at some moment of the abstract machine's run.
pub fn files_call_as_meant()
    ensures { FilesCallAsMeant }
{}

/// If the file has ended with a status, the abstract machine ends with this status, having done the same: the file never ends in another way.
pub fn ends_only_so()
    ensures { EndsOnlySo }
{}

/// The program of a unit that breaks no constraint has its main among its functions.
pub fn units_have_main()
    ensures { UnitsHaveMain }
{}

/// If the abstract machine ends within n ticks, the file ends with the same status after at most 64 n + 64 instructions, having done the same.
pub fn ends_in_time()
    ensures { EndsInTime }
{}

/// A file made of a program, on each input on which the program meets no undefined behaviour, however much stack its calls need: it does what the abstract
/// machine does, and ends if that ends, until a load or a store below the stack traps. Nothing else is ever stored to: the data are apart from the stack, and between
/// them there is no memory.
pub fn files_go_up_to_overflow()
    ensures { FilesGoUpToOverflow }
{}

/// The same as the headline, with the file's frames in place of weights: if the frames of the calls active at one time never take
/// more than the stack together, the file does what the abstract machine does.
pub fn files_run_within_frames()
    ensures { FilesRunWithinFrames }
{}

/// All that the abstract machine does before it meets undefined behaviour, the file does too, also within the same tick; and until then nothing else.
pub fn does_all_so_far()
    ensures { DoesAllSoFar }
{}

/// What an image's run has done depends only on the bytes that it has read so far: so what holds of each finite input holds of a terminal.
pub fn reads_as_it_goes()
    ensures { ReadsAsItGoes }
{}

/// Whatever a program does, its file never writes tp, which stays 0, and writes gp only in the third and the fourth instruction of its text (RISC-V ELF psABI,
/// "Integer Register Convention").
pub fn files_leave_reserved()
    ensures { FilesLeaveReserved }
{}

/// In a file made of a program each call passes C's own arguments: each number, converted to the type of its parameter and extended to a word, is in a0 to a7
/// or on the stack, as the psABI has it; and what the function returns, converted to the type of its result and extended to a word, is in a0 where it returns.
pub fn files_pass_words()
    ensures { FilesPassWords }
{}
