// What holds of every run of a guarded program.
ghost use Rattle.guard_prog.specs.Laws.{PrefixesAreRuns, FailureEndsRuns, DepthStaysWithin, BottomStaysIdle, CellsStayWithin};

/// A prefix of a run is a run.
pub fn prefixes_are_runs()
    ensures { PrefixesAreRuns }
{}

/// After a failure no turn follows.
pub fn failure_ends_runs()
    ensures { FailureEndsRuns }
{}

/// The stack stays within the depth.
pub fn depth_stays_within()
    ensures { DepthStaysWithin }
{}

/// The bottom of the stack stays point 0.
pub fn bottom_stays_idle()
    ensures { BottomStaysIdle }
{}

/// The cells stay within their widths.
pub fn cells_stay_within()
    ensures { CellsStayWithin }
{}
