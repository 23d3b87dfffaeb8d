// What is proved of records, of admission and of passes: each function's contract is a theorem, and the function does nothing.
ghost use Rattle.std.specs.Prelude.{Decides};
ghost use Rattle.lines.specs.Equal.{SameBar, SameFare};
ghost use Rattle.lines.specs.Theorems.{EqualMeansSame, LawfulLinesFit, AdmissionStands, PassesStand};

use crate::bar::Bar;
use crate::fare::FareLine;

// `==` holds of two fare lines, and of two bars, exactly where they are the same. (Lists and term lines say so at their own `==`.)
pub fn equal_when_same()
    ensures fares { (a b : FareLine) → Decides (⟦<FareLine as PartialEq>⟧.eq a b) (SameFare a b) }
    ensures bars { (a b : Bar) → Decides (⟦<Bar as PartialEq>⟧.eq a b) (SameBar a b) }
{}

#[tactic(auto, using(crate::proofs::Meaning::equal_means_same))]
pub fn equal_means_same()
    ensures { EqualMeansSame }
{}

#[tactic(auto, using(crate::proofs::Meaning::lawful_lines_fit))]
pub fn lawful_lines_fit()
    ensures { LawfulLinesFit }
{}

#[tactic(auto, using(crate::proofs::Admitting::admission_stands))]
pub fn admission_stands()
    ensures { AdmissionStands }
{}

#[tactic(auto, using(crate::proofs::Passing::passes_stand))]
pub fn passes_stand()
    ensures { PassesStand }
{}
