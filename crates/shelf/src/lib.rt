// What holds of a shelf and of what is under way to and from it, whatever the hands are and do. Each function's contract is a
// theorem about the definitions in specs/Moments, and its body does nothing: a theorem that had no proof would be refused here.
// The lemmas in proofs/ are for hands with minds of any type; contracts state them for minds that are lists of numbers.
#![tactic(auto)]

ghost use Rattle.shelf.specs.Moments.{AloneHappens, AnswersBelong, EditionsRise, LateLooks, OneContent, OneRequest, WaitsInMind, WaysGrow};

// In one step a box stays as it is, or its edition rises by one.
pub fn editions_rise()
    ensures { EditionsRise }
{}

// A box has one content for each edition.
pub fn one_content()
    ensures { OneContent }
{}

// Whatever is under way stays under way.
pub fn ways_grow()
    ensures { WaysGrow }
{}

// An answer under a number is about the box that was asked for under it, at a moment after the request.
pub fn answers_belong()
    ensures { AnswersBelong }
{}

// Numbers that rise in each turn tell requests apart.
pub fn one_request()
    ensures { OneRequest }
{}

// What waits at a hand is in its mind.
pub fn waits_in_mind()
    ensures { WaitsInMind }
{}

// A call that leaves the state as it is may be done at any moment between its call and its answer.
pub fn late_looks()
    ensures { LateLooks }
{}

// What a hand does alone with the shelf can happen.
pub fn alone_happens()
    ensures { AloneHappens }
{}
