// What holds of the threads of every program.
ghost use Rattle.machine.specs.Laws.{StayWithinWords, HaveOnlyItsThreads, EndWithinSteps, CountSteps, KeepThread, GoStepByStep, SettleWithPending, StaySettled, KeepToLimits, CompareAfterLoads, RunOnTaken, TallyOnTaken, KeepRunOnTaken, FitOnTaken};

/// The threads of every program stay within its words, are no more than it has, end within the limit of steps, and keep
/// to their limits; the state after one more step follows from the state before it; a conditional write is wanted only
/// right after the load that saw what it expects.
pub fn machine_law()
    ensures within { StayWithinWords }
    ensures only { HaveOnlyItsThreads }
    ensures ends { EndWithinSteps }
    ensures steps { CountSteps }
    ensures thread { KeepThread }
    ensures step { GoStepByStep }
    ensures pending { SettleWithPending }
    ensures stays { StaySettled }
    ensures keeps { KeepToLimits }
    ensures compares { CompareAfterLoads }
{}

/// A thread's run that took some numbers is its run under these numbers alone: the same states, counts and numbers taken;
/// so what fits a log under some inputs fits it under the numbers that the log holds.
pub fn input_law()
    ensures states { RunOnTaken }
    ensures tallies { TallyOnTaken }
    ensures runs { KeepRunOnTaken }
    ensures fits { FitOnTaken }
{}
