// Laws of runs of a script: what its calls settle.
ghost use Rattle.dict_runs.specs.Laws.{LawOfOneRun, LawOfOneReport};

/// The calls of a script make one run: what each comes to, its calls of the arena with their events, and the map behind it.
pub fn law_of_one_run()
    ensures { LawOfOneRun }
{}

/// A script has one report, on whichever device its calls are made, and leaves one image.
pub fn law_of_one_report()
    ensures { LawOfOneReport }
{}
