//! Laws of the verdict: accepted programs run well, and every scan ends.
ghost use Rattle.verifier.specs.Budget.{LongestIsAPath, NoPathIsLonger};
ghost use Rattle.verifier.specs.Promise.{AcceptedFitFacts};
ghost use Rattle.verifier.specs.Safe.{AcceptedNeverGoWrong};
ghost use Rattle.verifier.specs.Sound.{EveryScanEnds, RunsOut, RunsWell, YesIsAccepted};
ghost use Rattle.verifier.specs.Worked.{WorkedVerdicts};

/// A program whose verdict is yes is accepted, and its budget is the verdict's.
pub fn yes_is_accepted()
    ensures { YesIsAccepted }
{}

/// A scan of an accepted program never traps, each of its states fits the fact of its instruction,
/// and variables, outputs and the number of deferred values stay in their ranges.
pub fn runs_well()
    ensures { RunsWell }
{}

/// A scan of an accepted program ends within the budget.
pub fn runs_out()
    ensures { RunsOut }
{}

/// Every number of scans of an accepted program end within the budget and leave all in range.
pub fn every_scan_ends()
    ensures { EveryScanEnds }
{}

/// The worked verdicts, computed.
pub fn worked_verdicts()
    ensures { WorkedVerdicts }
{}

/// The number of instructions that a budget is a multiple of is that of the longest path: no path from
/// instruction 0 or from the label of a counted jump has more, and, where there is one, one has as many.
pub fn longest_is_of_a_path()
    ensures no_longer { NoPathIsLonger }
    ensures as_long { LongestIsAPath }
{}

/// What is accepted keeps its promise: every number of scans end without a trap and within the budget,
/// with variables and outputs in their ranges; and each state of a scan fits the fact of its instruction.
pub fn accepted_keep_promises()
    ensures safe { AcceptedNeverGoWrong }
    ensures fits { AcceptedFitFacts }
{}
