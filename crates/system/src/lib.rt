// The worker over the real book: what is promised of the system as it is. Each function's contract is a theorem about the
// definitions of `streams`, of every plan within its limits and 1 to 256 logs; its body does nothing.
#![tactic(auto)]

ghost use Rattle.system.specs.Real.{RealBusyAtNine, RealComesOut, RealOneBook, RealOneIsEnough, RealWhole, RealWithin};
ghost use Rattle.system.specs.Strange.{StrangeBytes};

// With up to 64 workers that come and go at any time, knowing nothing when they come, and whatever is lost, late, doubled or
// out of order on its way between them and the store: what customers see is what one book-keeper would tell.
pub fn one_book()
    ensures { RealOneBook }
{}

// Only a ninth call that waits at a worker is handed back.
pub fn busy_at_nine()
    ensures { RealBusyAtNine }
{}

// From whatever has come to be, any one worker that is there can, with the store and nobody else, answer all that waits at it.
pub fn one_is_enough()
    ensures { RealOneIsEnough }
{}

// And it comes to where, asked for what came out, it answers all that there is.
pub fn comes_out()
    ensures { RealComesOut }
{}

// All of it, for all plans; and so for plans of one stage.
pub fn whole()
    ensures { RealWhole }
{}

// And within how many turns and answers of the store, from wherever it is, all is out.
pub fn how_soon()
    ensures { RealWithin }
{}

// A box whose bytes are not what the book writes changes nothing but the wait: nothing is told, filled or forgotten by them.
pub fn strange_bytes()
    ensures { StrangeBytes }
{}
