// Laws of runs: what the calls of a trace settle.
ghost use Rattle.trace_runs.specs.Laws.{LawOfOneJournal, LawOfOneRun};

/// Calls of an arena that read and write no word have one journal that answers them in order.
pub fn law_of_one_journal()
    ensures { LawOfOneJournal }
{}

/// All calls, also those that read and write words, make one run, whose events are so many. What a crash leaves is said over
/// it.
pub fn law_of_one_run()
    ensures { LawOfOneRun }
{}
