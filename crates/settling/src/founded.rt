// Rules without a book: the well-founded model.
ghost use Rattle.marks.specs.Refusals.{Refuses, Gives, Test};
ghost use Rattle.settling.specs.Calls.{LawfulFares};
ghost use Rattle.settling.specs.Models.{IsModel};

use crate::first::FirstWay;
use crate::settled::complement;
use crate::trip::Trip;
use books::bare::BareBook;
use lines::fare::FareLine;
use lines::index::Index;
use marks::refusal::Refusal;
use marks::set::MarkSet;

// What is so, and what is not.
#[derive(Clone, Copy)]
pub struct Model {
    pub holds: MarkSet,
    pub fails: MarkSet,
}

impl Trip<'_, BareBook> {
    // The least reading with the bare book: what lies outside its U is not so.
    fn model(&self) -> Result<Model, Refusal>
        ensures { Gives result (IsModel self.now.lines.now self.now.facts.now) }
    {
        let reading = self.rounds::<FirstWay>()?.reading;
        let fails = complement(&reading.upper)?;
        Ok(Model {
            holds: reading.lower,
            fails,
        })
    }
}

// The well-founded model of the facts and fare lines, as Van Gelder, Ross and Schlipf defined it in 1991.
pub fn well_founded(lines: &[FareLine], facts: &MarkSet) -> Result<Model, Refusal>
    ensures { Test (LawfulFares facts.now.width lines.now → ⊥) (Refuses result 8) (Gives result (IsModel lines.now facts.now)) }
{
    let book = BareBook::new(facts.width())?;
    let mut index = Index::new();
    Trip::of(lines, &book, facts, &mut index)?.model()
}
