// Laws of the grammar of scripts. With the contract of `read_script` they say that it answers a script exactly where the text is
// one, and else the number of the one refused line, unless memory runs out.
ghost use Rattle.dict_text.specs.Laws.{LawOfOneScript, LawOfNoRefusedScript, LawOfOneRefusedScript};

/// A text says one script at most.
pub fn law_of_one_script()
    ensures { LawOfOneScript }
{}

/// A script has no refused line.
pub fn law_of_no_refused_script()
    ensures { LawOfNoRefusedScript }
{}

/// A text has one refused line at most.
pub fn law_of_one_refused_script()
    ensures { LawOfOneRefusedScript }
{}
