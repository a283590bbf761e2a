//! Theorems about scripts. Each is the contract of a function that does nothing.
ghost use Rattle.std.specs.Prelude.{◌≡◌};
ghost use Rattle.ec_script.specs.declared.parsing.TheConstants.{SCRIPT_MAX};
ghost use Rattle.ec_script.specs.Confined.{ConfinedLinesAreConfinedCommands, PlansAreConfined};
ghost use Rattle.ec_script.specs.Counted.{BlocksAreCounted};
ghost use Rattle.ec_script.specs.Endings.{FaultlessLinesAreAccepted, UnfinishedIsReported};
ghost use Rattle.ec_script.specs.Faults.{HeadFaultsKeepTheirNumbers};
ghost use Rattle.ec_script.specs.Given.{LinesMeanItems, ScriptsAreSpelled};
ghost use Rattle.ec_script.specs.Grammar.{FaultIsTheFirst, FaultsAreReported, LongIsLine1, ReadIsScript, ScriptIsRead};
ghost use Rattle.ec_script.specs.Holding.{LeastKindWins};
ghost use Rattle.ec_script.specs.Layout.{LayoutsAreScripts, ScriptsAreLaidOut};
ghost use Rattle.ec_script.specs.Pairs.{LinesLeadToHeadings, LinesOfTwoRoles, TwoRolesAreOneName, TwoRolesAreReported};
ghost use Rattle.ec_script.specs.Spelling.{LayoutsAreSpelled, LinesAreSpelled};

/// States that each script is parsed to the plan that it says.
pub fn script_is_read()
    ensures { ScriptIsRead }
{}

/// States that each text that is parsed to a plan is a script that says that plan.
pub fn read_is_script()
    ensures { ReadIsScript }
{}

/// States that the fault that is reported for a text within the bound is that of its first faulty
/// line.
pub fn fault_is_the_first()
    ensures { FaultIsTheFirst }
{}

/// States that a fault of a header's line has the same number as its kind among those of scripts.
pub fn head_faults_keep_their_numbers()
    ensures { HeadFaultsKeepTheirNumbers }
{}

/// States that the fault that is reported for a longer text is that of line 1.
pub fn long_is_line_1()
    ensures { LongIsLine1 }
{}

/// States that a line and a kind are reported for a text exactly if they are its fault. For a text
/// within the bound that is the fault of its first faulty line, for a longer one that of line 1.
pub fn faults_are_reported()
    ensures { FaultsAreReported }
{}

/// States that a kind is reported for a line exactly if it is the least that holds of the line in
/// its place. Each kind has a definition of its own.
pub fn least_kind_wins()
    ensures { LeastKindWins }
{}

/// States that a line is accepted exactly if no kind of fault holds of it.
pub fn faultless_lines_are_accepted()
    ensures { FaultlessLinesAreAccepted }
{}

/// States that the counts of the open block are those of its lines: how many commands they are, and
/// how many repeats are open. The innermost has no command exactly if the last line begins it.
pub fn blocks_are_counted()
    ensures { BlocksAreCounted }
{}

/// States that a text is reported as unfinished exactly if it is within the bound and ends too
/// early: before the line of the workers, inside a block, or without the LF of a last line that has
/// no other fault.
pub fn unfinished_is_reported()
    ensures { UnfinishedIsReported }
{}

/// States that every plan has a program for each declared worker and a schedule of declared
/// workers. Its commands use the objects of groups only by the groups' procedures, and are among
/// those of its version.
pub fn plans_are_confined()
    ensures { PlansAreConfined }
{}

/// States that if the lines of programs are confined, so is each command of the programs with their
/// repeats unrolled.
pub fn confined_lines_are_confined_commands()
    ensures { ConfinedLinesAreConfinedCommands }
{}

/// States that a text that is a script consists of a header, whole blocks and a schedule, which say
/// its plan.
pub fn scripts_are_laid_out()
    ensures { ScriptsAreLaidOut }
{}

/// States that a text that consists of these is a script of that plan.
pub fn layouts_are_scripts()
    ensures { LayoutsAreScripts }
{}

/// States that a line of a block is the canonical encoding of the item that it says.
pub fn lines_are_spelled()
    ensures { LinesAreSpelled }
{}

/// States that a script is the canonical encoding of its header, its blocks as workers and items,
/// and its schedule.
pub fn layouts_are_spelled()
    ensures { LayoutsAreSpelled }
{}

/// States that a line says an item exactly if it is the canonical encoding of the item, and the
/// item is allowed to the worker.
pub fn lines_mean_items()
    ensures { LinesMeanItems }
{}

/// States that a text is a script of a plan exactly if it is the canonical encoding of a syntax
/// tree of that plan. The tree has a header, for each block a worker and items that are allowed to
/// it, and the rows of a schedule, all within the bounds. Repeats are properly nested, and no
/// worker has two blocks.
pub fn scripts_are_spelled()
    ensures { ScriptsAreSpelled }
{}

/// States that two of the three semaphores of a `pboth` line are equal exactly if its two words are
/// equal: the common semaphore has no name, and two names have no object in common.
pub fn two_roles_are_one_name()
    ensures { TwoRolesAreOneName }
{}

/// States that `TwoRoles` is reported for a line after the declarations exactly if it is a `pboth`
/// that names one declared semaphore twice, in a block that has room for it.
pub fn two_roles_are_reported()
    ensures { TwoRolesAreReported }
{}

/// States that what the lines of a script have declared is a header.
pub fn lines_lead_to_headings()
    ensures { LinesLeadToHeadings }
{}

/// States that `TwoRoles` is reported for each line of a script that is such a `pboth`, and
/// otherwise only for a declaration that the header rejects with it.
pub fn lines_of_two_roles()
    ensures { LinesOfTwoRoles }
{}

/// States the most bytes that a script may have, as a number.
pub fn scripts_have_a_mebibyte_at_most()
    ensures { SCRIPT_MAX ≡ 1048576 }
{}
