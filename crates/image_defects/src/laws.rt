// Laws of defects.
ghost use Rattle.image_defects.specs.Defects.{LawOfFaultless, LawOfNoDefect, LawOfOneDefect};
ghost use Rattle.image_defects.specs.Summaries.{LawOfOneSummary};

/// An image has no defect of any class exactly where it is sound.
pub fn law_of_faultless()
    ensures { LawOfFaultless }
{}

/// A sound image has no first defect.
pub fn law_of_no_defect()
    ensures { LawOfNoDefect }
{}

/// An image has one first defect at most.
pub fn law_of_one_defect()
    ensures { LawOfOneDefect }
{}

/// An image has one summary at most.
pub fn law_of_one_summary()
    ensures { LawOfOneSummary }
{}
