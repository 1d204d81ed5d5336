//! What is proved of the machine on bare numbers, which makes no test.

ghost use Rattle.scan_vm.specs.Bare.{BareAgrees, BareRunsOut, BareStaysInWords, NeverWraps, WrappedKeepsWords};

/// The machine on bare numbers goes as the machine that tests does, where that one doesn't trap.
pub fn bare_agrees()
    ensures { BareAgrees }
{}

/// On an accepted program it ends within the budget, with the steps, the variables and the outputs of
/// the machine that tests, in their ranges.
pub fn bare_runs_out()
    ensures { BareRunsOut }
{}

/// On an accepted program each number that it holds is one of LINT, after any number of steps.
pub fn bare_stays_in_words()
    ensures { BareStaysInWords }
{}

/// On an accepted program words never wrap: what a word makes of other numbers is never seen. Two's
/// complement in 64 bits is such a word.
pub fn never_wraps()
    ensures run { NeverWraps }
    ensures wrapped { WrappedKeepsWords }
{}
