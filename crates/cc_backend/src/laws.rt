//! The image of a program runs as the program does: laws of flat code, of three-address code and of the typed program that they come from; and the
//! code of a function is as short as the tables of bytes say.
ghost use Rattle.cc_backend.specs.FlatImages.{ImageGoesOn, ImageEnds, ImageCallsKeep};
ghost use Rattle.cc_backend.specs.Convention.{ImageCallsKeepConvention, ImageMainKeepsConvention, FramesAreWeighed};
ghost use Rattle.cc_backend.specs.Words.{StepsAreAsMeant};
ghost use Rattle.cc_backend.specs.Chain.{TacSimulatesProgram, FlatSimulatesTac, SimplifiedSimulatesFlat, LaidOutSimulatesFlat, OptimisedSimulatesFlat, RenumberedSimulatesFlat, ImageSimulatesFlat, FlatSimulatesProgram, FileSimulatesProgram};
ghost use Rattle.cc_backend.specs.Sizes.{RowsFit, CodeFits, ProgramIsShort};
ghost use Rattle.cc_backend.specs.Made.{UnitsAreSmall};

/// Where a flat program goes on, its image does too, having done the same, and with the same input left.
pub fn image_goes_on()
    ensures { ImageGoesOn }
{}

/// Where a flat program ends, its image ends with the same status, having done the same, and with the same input left.
pub fn image_ends()
    ensures { ImageEnds }
{}

/// At each call that a flat program reaches the machine matches it; after its return it has the same stack pointer and s0 to s11, and the result in a0.
pub fn image_calls_keep()
    ensures { ImageCallsKeep }
{}

/// Each call that a flat program reaches keeps the calling convention on the machine that runs its image.
pub fn image_calls_keep_convention()
    ensures { ImageCallsKeepConvention }
{}

/// And so does main.
pub fn image_main_keeps_convention()
    ensures { ImageMainKeepsConvention }
{}

/// The frames of the active calls never sum to more than the weights that the abstract machine reports.
pub fn frames_are_weighed()
    ensures { FramesAreWeighed }
{}

/// At each step of a program's flat code its three-address code has the same calls active; and where the one is about to call or to return, the other is
/// too, with the same words in its temporaries.
pub fn steps_are_as_meant()
    ensures { StepsAreAsMeant }
{}

/// Three-address code simulates the program that it was lowered from.
pub fn tac_simulates_program()
    ensures { TacSimulatesProgram }
{}

/// Flat code simulates the three-address code that it was flattened from.
pub fn flat_simulates_tac()
    ensures { FlatSimulatesTac }
{}

/// Simplified flat code does what the flat code does.
pub fn simplified_simulates_flat()
    ensures { SimplifiedSimulatesFlat }
{}

/// Flat code that is laid out anew does what the flat code does, in fewer steps.
pub fn laid_out_simulates_flat()
    ensures { LaidOutSimulatesFlat }
{}

/// Optimised flat code simulates the original.
pub fn optimised_simulates_flat()
    ensures { OptimisedSimulatesFlat }
{}

/// Flat code with its words renumbered simulates the original.
pub fn renumbered_simulates_flat()
    ensures { RenumberedSimulatesFlat }
{}

/// The machine of the table, from the image of flat code, simulates the flat code.
pub fn image_simulates_flat()
    ensures { ImageSimulatesFlat }
{}

/// So flat code made of a program simulates the program, tick for tick.
pub fn flat_simulates_program()
    ensures { FlatSimulatesProgram }
{}

/// And so does the machine from its image, within 60 n + 66 instructions for n ticks, and 60 n + 68 where the program ends.
pub fn file_simulates_program()
    ensures { FileSimulatesProgram }
{}

/// The rows of a function of flat code, by the code that `select` emits, sum to no more than its bytes by the table of flattening where the size of its frame is known.
pub fn rows_fit()
    ensures { RowsFit }
{}

/// The code of a function takes at most 128 bytes for each of its nodes, and 1024.
pub fn code_fits()
    ensures { CodeFits }
{}

/// So each jump reaches in the code of a program that was checked, lowered and flattened.
pub fn program_is_short()
    ensures { ProgramIsShort }
{}

/// The functions of a unit's program have no more nodes than the unit.
pub fn units_are_small()
    ensures { UnitsAreSmall }
{}
