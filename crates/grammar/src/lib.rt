// The language of plans as docs/PLANS.md has it: the reasons for which a text is refused, the operators, the reading
// and the printing as functions on lists of bytes (specs/), and what holds of the two. Assumes nothing.
#![tactic(auto)]

ghost use Rattle.grammar.specs.Laws.{FewestBrackets, PrintFits, PrintReads, ReadsValid};

pub mod operators;
pub mod refusals;

// What is read is a plan within the limits.
pub fn reads_valid()
    ensures { ReadsValid }
{}

// What is printed of a plan within the limits fits into a text.
pub fn print_fits()
    ensures { PrintFits }
{}

// What is printed of a plan within the limits is read as that plan.
pub fn print_reads()
    ensures { PrintReads }
{}

// No text that is read as a plan opens fewer brackets than what is printed of that plan.
pub fn fewest_brackets()
    ensures { FewestBrackets }
{}
