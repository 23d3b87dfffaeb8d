// What is proved of readings: each function's contract is a theorem, and the function does nothing.
ghost use Rattle.readings.specs.Theorems.{Always, AnswersAreSound, BareBookIsWellFounded, BrokenFacts, ComputedRight};
ghost use Rattle.readings.specs.Theorems.{FirstMethodFindsIt, MethodsAgree, MethodsStop, OneLeastReading, RelationsDecide};
ghost use Rattle.readings.specs.Theorems.{SaysOneThing, YieldsExistOnce, YieldsFall};

// Every set has exactly one full yield and exactly one guarded yield.
#[tactic(auto, using(crate::proofs::Statements::yields_exist_once))]
pub fn yields_exist_once()
    ensures { Always YieldsExistOnce }
{}

// Both yields fall as the set grows, and the guarded lies within the full.
#[tactic(auto, using(crate::proofs::Statements::yields_fall))]
pub fn yields_fall()
    ensures { Always YieldsFall }
{}

// There is exactly one least reading.
pub fn one_least_reading()
    ensures { Always OneLeastReading }
{}

// The first method comes closer with every round, and where it rests is the least reading.
#[tactic(auto, using(crate::proofs::Statements::first_method_finds_it))]
pub fn first_method_finds_it()
    ensures { Always FirstMethodFindsIt }
{}

// The second method goes through the same pair in every round; so both give the same reading, verdict and rounds.
#[tactic(auto, using(crate::proofs::Statements::methods_agree))]
pub fn methods_agree()
    ensures { Always MethodsAgree }
{}

// Each method stops, at one pair, after one number of rounds: at most the width and 2.
#[tactic(auto, using(crate::proofs::Statements::methods_stop))]
pub fn methods_stop()
    ensures { Always MethodsStop }
{}

// What holds is in every sound reading, what is not is in none, and broken facts have none.
#[tactic(auto, using(crate::proofs::Statements::answers_are_sound))]
pub fn answers_are_sound()
    ensures { Always AnswersAreSound }
{}

// Facts are broken exactly when the book clashes at T. T is then all marks, and else it lies within U.
pub fn broken_is_a_clash()
    ensures { Always BrokenFacts }
{}

// With the bare book the least reading is the well-founded model.
pub fn bare_book_is_well_founded()
    ensures { BareBookIsWellFounded }
{}

// Each mark has exactly one answer, and the facts have exactly one verdict.
#[tactic(auto, using(crate::proofs::Statements::says_one_thing))]
pub fn says_one_thing()
    ensures { Always SaysOneThing }
{}

// Each relation that a promise cites has exactly one solution.
pub fn relations_decide()
    ensures { Always RelationsDecide }
{}

// The computations for worked examples give what the definitions say.
pub fn computed_right()
    ensures { Always ComputedRight }
{}
