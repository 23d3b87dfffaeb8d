// What is proved of sheets. This function does nothing; it has a theorem for its contract.
ghost use Rattle.sheet.specs.Theorems.{CountsDecide};

// What counts answers is one number for each answer, and no other.
#[tactic(auto, using(crate::proofs::Counting::counts_decide))]
pub fn counts_decide()
    ensures { CountsDecide }
{}
