// Laws of the grammars of traces. With the contracts of `read_trace` and `read_still_trace` they say that it answers a trace exactly where the
// text is one, and else the number of the one refused line, unless memory runs out.
ghost use Rattle.trace_text.specs.Laws.{LawOfOneTrace, LawOfNoRefusal, LawOfOneRefusal, LawOfOneStillTrace, LawOfNoStillRefusal, LawOfOneStillRefusal};

/// A text says one trace at most.
pub fn law_of_one_trace()
    ensures { LawOfOneTrace }
{}

/// A trace has no refused line.
pub fn law_of_no_refusal()
    ensures { LawOfNoRefusal }
{}

/// A text has one refused line at most.
pub fn law_of_one_refusal()
    ensures { LawOfOneRefusal }
{}

/// A text says one trace without moves at most.
pub fn law_of_one_still_trace()
    ensures { LawOfOneStillTrace }
{}

/// A trace without moves has no line that is refused as such a trace.
pub fn law_of_no_still_refusal()
    ensures { LawOfNoStillRefusal }
{}

/// A text has one line at most that is refused as a trace without moves.
pub fn law_of_one_still_refusal()
    ensures { LawOfOneStillRefusal }
{}
