// A law of summaries.
ghost use Rattle.image_check.specs.Laws.{LawOfExactSummary};

/// A sound image is exact where its summary counts nothing loose, and back.
pub fn law_of_exact_summary()
    ensures { LawOfExactSummary }
{}
