//! Laws: code does what its program means.
ghost use Rattle.il_assemble.specs.Assembled.{ImagesAreProper, NamesStayDifferent, PartsAreTheCode, StartsAreInRange, StaticFaultsWantNoMemory, WhatElaboratesIsWell};
ghost use Rattle.il_assemble.specs.Examples.{ExamplesHold};
ghost use Rattle.il_assemble.specs.Correct.{CodeIsOfBytes, CodeDoesWhatTheProgramMeans, EachEndIsTheMeaning, NumberedCountersFindTheirLimits, RunsThatAreOverStayOver, SizesDependOnTheFormAlone, TurnsNeverRunOut};
ghost use Rattle.il_assemble.specs.Faulty.{StaticFaultsAreTold, TagsAreOfUses, TheFirstFaultIsTold, TheFirstUseCounts};
ghost use Rattle.il_assemble.specs.LineTable.{InstructionsHaveTheirLines};
ghost use Rattle.il_assemble.specs.Texts.{TextsKeepTheLimits};

use il_reader::laws::reading_is_exact;

/// The machine on the code of a program does what the program means: it ends with the same variables and outputs, or stops with the same fault.
pub fn code_does_what_the_program_means()
    ensures { CodeDoesWhatTheProgramMeans }
{}

/// A run that is over stays over, so each program has one end.
pub fn runs_that_are_over_stay_over()
    ensures { RunsThatAreOverStayOver }
{}

/// So each end of the machine's run, after however many instructions, is what the program means.
pub fn each_end_is_the_meaning()
    ensures { EachEndIsTheMeaning }
{}

/// The turns of counted jumps that evaluation is given never run out: it ends at the last line, by a return
/// or by a fault.
pub fn turns_never_run_out()
    ensures { TurnsNeverRunOut }
{}

/// The code of a program is of bytes, and so few that each address takes two of them.
pub fn code_is_of_bytes()
    ensures { CodeIsOfBytes }
{}

/// The size of a line's code depends on its form alone, wherever the labels stand.
pub fn sizes_depend_on_the_form_alone()
    ensures { SizesDependOnTheFormAlone }
{}

/// Where counters are numbered in order, and the table is of their limits in order, each finds its own.
pub fn numbered_counters_find_their_limits()
    ensures { NumberedCountersFindTheirLimits }
{}

/// The parts of an instruction, by which the line is told whose code passes the limit, make up its code.
pub fn parts_are_the_code()
    ensures { PartsAreTheCode }
{}

/// The lines of instructions are those of parts that make up the code of the program: instruction i of the image
/// lies in the code of the statement at line i of the table.
pub fn instructions_have_their_lines()
    ensures { InstructionsHaveTheirLines }
{}

/// What elaborates is well formed.
pub fn what_elaborates_is_well()
    ensures { WhatElaboratesIsWell }
{}

/// Each variable's start value lies in its declared range.
pub fn starts_are_in_range()
    ensures { StartsAreInRange }
{}

/// Of the static faults of instructions that of the first one at fault is told, and of its lowest kind; none where no instruction
/// has any.
pub fn the_first_fault_is_told()
    ensures { TheFirstFaultIsTold }
{}

/// A program elaborates exactly where it has no static fault, and is else refused for that which comes first.
pub fn static_faults_are_told()
    ensures { StaticFaultsAreTold }
{}

/// Each external is an input or an output as its first use is a load or a store.
pub fn the_first_use_counts()
    ensures { TheFirstUseCounts }
{}

/// The tags of an image are those of the externals that are used, each as its first use is.
pub fn tags_are_of_uses()
    ensures { TagsAreOfUses }
{}

/// Want of memory is no static fault.
pub fn static_faults_want_no_memory()
    ensures { StaticFaultsWantNoMemory }
{}

/// Worked programs: how they resolve, what they mean, their code, and how the machine ends on it.
pub fn examples_hold()
    ensures { ExamplesHold }
{}

/// The image of what elaborates keeps the rules of images: its version, how many variables, tags and bytes
/// of code it has, and that no name stands in it twice.
pub fn images_are_proper()
    ensures { ImagesAreProper }
{}

/// Where no name of a program is declared twice, none stands in its image twice: such a program isn't
/// refused for its names.
pub fn names_stay_different()
    ensures { NamesStayDifferent }
{}

/// A text gives no tree with too many names or parentheses, with a name twice or with a BOOL that has a range of
/// its own: a program that was read is refused for its lines alone, or for the size of its code.
pub fn texts_keep_the_limits()
    ensures { TextsKeepTheLimits }
{
    reading_is_exact()
}
