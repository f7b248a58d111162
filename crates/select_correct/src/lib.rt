//! The machine follows flat code: laws of the items that `select` emits, one for each form of instruction; and in the code of a program whose
//! functions are short, each jump reaches.
#![tactic(auto)]

ghost use Rattle.select_correct.specs.Laws.{NothingFollows, JumpsFollow, BranchesFollow, MovesFollow, ConversionsFollow, OperationsFollow, ExitFollows, AddressesFollow, ElementsFollow, LoadsFollow, StoresFollow, PutFollows, GetFollows, CallsFollow, ReturnsFollow, FunctionsFit};
ghost use Rattle.select_correct.specs.Costs.{RowsAreLengths, RowsAreFew, SpentIsMore};
ghost use Rattle.select_correct.specs.Runs.{StepFollows, RunsFollow, Progresses, EachCallKeeps, LaidIsReady, EntriesFollow, ConventionKept, BeginsFollow, EndsFollow, MachineGoesOn, MachineEnds, MachineCallsKeep};
ghost use Rattle.select_correct.specs.Standing.{MachineStands, StepStands, FramesFill, RegistersShown, MatchedStands, NoneIsAbove, InputStaysBytes};
ghost use Rattle.select_correct.specs.Convention.{CallsKeepConvention, MainKeepsConvention};
ghost use Rattle.select_correct.specs.Reaching.{JumpsReach};

/// A row of the table of costs is how many instructions the items are, with all branches long.
pub fn rows_are_lengths()
    ensures { RowsAreLengths }
{}

/// The rows in short: a call and its entry take 4 instructions and the residents, a return 3 and the residents, all else at most 12; and 2 more for each
/// operand that is far.
pub fn rows_are_few()
    ensures { RowsAreFew }
{}

/// The cost of a run is at most that by the table of `frames_code`, which needs of a function only the size of its frame.
pub fn spent_is_more()
    ensures { SpentIsMore }
{}

/// `Nothing` has no items, and the machine stays where it is.
pub fn nothing_follows()
    ensures { NothingFollows }
{}

/// A jump leads to where its instruction's items begin.
pub fn jumps_follow()
    ensures { JumpsFollow }
{}

/// A branch, short or long, leads there where its comparison holds, and else on.
pub fn branches_follow()
    ensures { BranchesFollow }
{}

/// A value is moved from each place of an operand to each place of a target.
pub fn moves_follow()
    ensures { MovesFollow }
{}

/// A conversion to a narrow type has the result of flat code.
pub fn conversions_follow()
    ensures { ConversionsFollow }
{}

/// Each operation on two words has the result of flat code.
pub fn operations_follow()
    ensures { OperationsFollow }
{}

/// The program ends with the status that flat code ends with.
pub fn exit_follows()
    ensures { ExitFollows }
{}

/// A reference is the address of a place in the statics, of one in the frame, or of the target of a reference.
pub fn addresses_follow()
    ensures { AddressesFollow }
{}

/// A reference advanced by n elements is n times their size further, modulo 2^32.
pub fn elements_follow()
    ensures { ElementsFollow }
{}

/// An element of each size is read from the list that a location names.
pub fn loads_follow()
    ensures { LoadsFollow }
{}

/// An element of each size is written into the list that a location names, and nothing else changes.
pub fn stores_follow()
    ensures { StoresFollow }
{}

/// The byte that a0 ends in is put.
pub fn put_follows()
    ensures { PutFollows }
{}

/// The next byte of the input, or all bits at its end, is put in a0.
pub fn get_follows()
    ensures { GetFollows }
{}

/// A call opens a frame below its caller's, whose words that live in registers are in the homes of the frame that was opened.
pub fn calls_follow()
    ensures { CallsFollow }
{}

/// A return gives the caller its registers back, or leaves the program's outermost call as that was entered.
pub fn returns_follow()
    ensures { ReturnsFollow }
{}

/// One step of flat code, whatever the instruction there.
pub fn step_follows()
    ensures { StepFollows }
{}

/// Any number of steps of flat code, by the sums of the table's rows.
pub fn runs_follow()
    ensures { RunsFollow }
{}

/// A run that goes on advances the machine: at least one instruction for each `slack` steps.
pub fn progresses()
    ensures { Progresses }
{}

/// Each call within a run, however deep, keeps the stack pointer and s0 to s11, and returns to the place after it.
pub fn each_call_keeps()
    ensures { EachCallKeeps }
{}

/// A function that is called from outside finds its arguments where ILP32 has them.
pub fn entries_follow()
    ensures { EntriesFollow }
{}

/// And it leaves as ILP32 requires: the stack pointer, s0 to s11 and the bytes above are as it found them.
pub fn convention_kept()
    ensures { ConventionKept }
{}

/// Where a program's items are placed, each instruction's items and each function's entry are at their labels.
pub fn laid_is_ready()
    ensures { LaidIsReady }
{}

/// From a program's entry the machine reaches a match of flat code's beginning.
pub fn begins_follow()
    ensures { BeginsFollow }
{}

/// A flat program that ends: the machine ends with the same status, having done the same.
pub fn ends_follow()
    ensures { EndsFollow }
{}

/// Where a flat program goes on, the machine of the table does too, having done the same, and with the same input left.
pub fn machine_goes_on()
    ensures { MachineGoesOn }
{}

/// Where a flat program ends, the machine of the table ends with the same status, having done the same, and with the same input left.
pub fn machine_ends()
    ensures { MachineEnds }
{}

/// At each call that a flat program reaches the machine of the table matches it; after the return that ends the call it has the same stack pointer and s0 to
/// s11, and the result in a0.
pub fn machine_calls_keep()
    ensures { MachineCallsKeep }
{}

/// Each call of a flat program's run keeps the calling convention: on the entry of the function, while it runs, and where it has returned.
pub fn calls_keep_convention()
    ensures { CallsKeepConvention }
{}

/// And so does main, from the program's entry.
pub fn main_keeps_convention()
    ensures { MainKeepsConvention }
{}

/// Where the rows of no function sum to more than 2^20 bytes, each jump of a sound program's items reaches its label.
pub fn jumps_reach()
    ensures { JumpsReach }
{}

/// In the middle of a run: registers and memory of the machine of the table match the flat program's state.
pub fn machine_stands()
    ensures { MachineStands }
{}

/// From where they match, a step of flat code leads to where they match again.
pub fn step_stands()
    ensures { StepStands }
{}

/// The active frames fill the stack from the stack pointer up to where the outermost call began.
pub fn frames_fill()
    ensures { FramesFill }
{}

/// Registers x1 to x31 of a world are those that it is of.
pub fn registers_shown()
    ensures { RegistersShown }
{}

/// A world of registers and memory that match a state is at the state's instruction, with its frames, temporaries, input and trace.
pub fn matched_stands()
    ensures { MatchedStands }
{}

/// Where no call is singled out, no frame is above one.
pub fn none_is_above()
    ensures { NoneIsAbove }
{}

/// A step leaves bytes as the input, where it found bytes.
pub fn input_stays_bytes()
    ensures { InputStaysBytes }
{}

/// The functions of a sound program meet the requirements on each.
pub fn functions_fit()
    ensures { FunctionsFit }
{}
