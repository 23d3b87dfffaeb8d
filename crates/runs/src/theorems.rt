// What is proved of runs. These functions do nothing; each has a theorem for its contract.
ghost use Rattle.runs.specs.Theorems.{ChainsAreRight, RunsDecide};

// Whoever makes calls on one sheet that began new has a right run.
#[tactic(auto, using(crate::proofs::Stepping::chains_are_right))]
pub fn chains_are_right()
    ensures { ChainsAreRight }
{}

// The rules leave no reply of a run open.
#[tactic(auto, using(crate::proofs::Deciding::runs_decide))]
pub fn runs_decide()
    ensures { RunsDecide }
{}
