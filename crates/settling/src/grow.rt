// Growing a set to the least closed set around it that has the heads of the admitted rules.
ghost use Rattle.std.specs.Prelude.{◌≡◌, Decides};
ghost use Rattle.marks.specs.MarkSets.{marks_of};
ghost use Rattle.marks.specs.Refusals.{Gives};
ghost use Rattle.marks.specs.Sets.{below};
ghost use Rattle.settling.specs.Growth.{LetInBy, LineLetInBy, Grown, Between, Turned};

use crate::trip::Trip;
use books::book::TermBook;
use lines::admission::Admission;
use lines::bring::{bring_all, bring_on};
use marks::refusal::Refusal;
use marks::set::MarkSet;

impl<B: TermBook> Trip<'_, B> {
    // One turn more, where closing `lined` added a mark: brings in the fare lines that stand at the set until none adds anything, and
    // closes it, on from what it was, where one did. Says whether there may be another turn: after a clash the set has all marks.
    fn turn(
        &self,
        gate: &Admission,
        lined: &mut MarkSet,
        set: &mut MarkSet,
    ) -> Result<bool, Refusal>
        requires { Between (B.TermBook.book self.now.book.now) (LineLetInBy self.now.lines.now gate.now) lined.old set.old }
        ensures { Gives result (Turned (B.TermBook.book self.now.book.now) (LineLetInBy self.now.lines.now gate.now) lined.old set.old lined.new set.new) }
    {
        if set.same_marks(lined)? {
            return Ok(false);
        }
        let closed = *set;
        bring_on(self.lines, self.index, gate, lined, set)?;
        if set.same_marks(&closed)? {
            return Ok(false);
        }
        *lined = *set;
        let clash = self.book.close_on(set, &closed)?;
        Ok(!clash)
    }

    // Brings fare lines in until none adds anything, closes the set, and does both again until the closing adds nothing.
    fn grow(&self, gate: &Admission, set: &mut MarkSet) -> Result<(), Refusal>
        requires { set.old.width ≡ (B.TermBook.book self.now.book.now).width }
        ensures { Gives result (λ _. Grown (B.TermBook.book self.now.book.now) (LineLetInBy self.now.lines.now gate.now) set.old set.new) }
    {
        bring_all(self.lines, self.index, gate, set);
        let mut lined = *set;
        if self.book.close(set)? {
            return Ok(());
        }
        while self.turn(gate, &mut lined, set)? {}
        Ok(())
    }

    // Whether the set has all marks of the width.
    pub(crate) fn is_whole(&self, set: &MarkSet) -> Result<bool, Refusal>
        requires { set.now.width ≡ (B.TermBook.book self.now.book.now).width }
        ensures { Gives result (λ b. Decides b (marks_of set.now ≡ below (B.TermBook.book self.now.book.now).width)) }
    {
        set.same_marks(&MarkSet::full(self.book.width())?)
    }

    // What the set grows to by all rules that the gate admits, facts and fare lines.
    pub(crate) fn grown(&self, start: &MarkSet, gate: &Admission) -> Result<MarkSet, Refusal>
        requires width { start.now.width ≡ (B.TermBook.book self.now.book.now).width }
        requires denied { gate.now.denied.width ≡ (B.TermBook.book self.now.book.now).width }
        ensures { Gives result (Grown (B.TermBook.book self.now.book.now) (LetInBy self.now.lines.now self.now.facts.now gate.now) start.now) }
    {
        if self.is_whole(start)? {
            return Ok(*start);
        }
        let mut admitted = *self.facts;
        admitted.subtract(&gate.denied)?;
        let mut set = *start;
        set.union_with(&admitted)?;
        self.grow(gate, &mut set)?;
        Ok(set)
    }
}
