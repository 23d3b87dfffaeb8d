// The calls on a set of marks.
ghost use Rattle.std.specs.Prelude.{◌≡◌, ◌<◌, ◌≤◌, Any, IfSome, Decides, ◌≢◌};
ghost use Rattle.marks.specs.MarkSets.{marks_of, BadWidth, IsSet, Unchanged};
ghost use Rattle.marks.specs.Overlaps.{Overlaps};
ghost use Rattle.marks.specs.Refusals.{Refuses, Gives, Test};
ghost use Rattle.marks.specs.Sets.{◌⊆◌, no_marks, below, among, with_mark, without_mark, ◌∪◌, ◌∩◌, ◌∖◌, size, Next};

use super::MarkSet;
use super::words::{
    has_mark, no_words, put_mark, take_mark, words_apart, words_below, words_same, words_shared,
    words_united, words_within,
};
use crate::overlap::Overlap;
use crate::refusal::Refusal;
use crate::width::{check_set_width, check_width};

impl MarkSet {
    // Puts the marks into a set that holds none.
    fn fill(&mut self, marks: &[u16]) -> Result<(), Refusal>
        requires { marks_of self.old ≡ no_marks }
        ensures { Test (Any (λ m. self.old.width ≤ m) marks.now) (Refuses result 9) (Gives result (λ _. IsSet self.new self.old.width (among marks.now))) }
    {
        for m in marks {
            self.insert(*m)?;
        }
        Ok(())
    }

    // The set of no marks.
    pub fn empty(width: u16) -> Result<MarkSet, Refusal>
        ensures { Test (BadWidth width) (Refuses result 7) (Gives result (λ s. IsSet s width no_marks)) }
    {
        check_width(width)?;
        Ok(MarkSet {
            width,
            words: no_words(),
        })
    }

    // The set of all marks of the width.
    pub fn full(width: u16) -> Result<MarkSet, Refusal>
        ensures { Test (BadWidth width) (Refuses result 7) (Gives result (λ s. IsSet s width (below width))) }
    {
        check_width(width)?;
        Ok(MarkSet {
            width,
            words: words_below(width),
        })
    }

    // The set of these marks, in any order and as often as they come.
    pub fn of(width: u16, marks: &[u16]) -> Result<MarkSet, Refusal>
        ensures { Test (BadWidth width) (Refuses result 7) (Test (Any (λ m. width ≤ m) marks.now) (Refuses result 9) (Gives result (λ s. IsSet s width (among marks.now)))) }
    {
        let mut set = MarkSet::empty(width)?;
        set.fill(marks)?;
        Ok(set)
    }

    // Whether the set holds the mark; at or above the width the answer is no.
    pub fn contains(&self, m: u16) -> bool
        ensures { result ≡ marks_of self.now m }
    {
        has_mark(&self.words, m)
    }

    // Puts the mark into the set, whether or not it is there already.
    pub fn insert(&mut self, m: u16) -> Result<(), Refusal>
        ensures { Test (self.old.width ≤ m) (Refuses result 9 × Unchanged self.old self.new) (Gives result (λ _. IsSet self.new self.old.width (with_mark (marks_of self.old) m))) }
    {
        if m >= self.width {
            return Err(Refusal::MarkTooHigh);
        }
        put_mark(&mut self.words, m);
        Ok(())
    }

    // Takes the mark out of the set, whether or not it is there.
    pub fn remove(&mut self, m: u16) -> Result<(), Refusal>
        ensures { Test (self.old.width ≤ m) (Refuses result 9 × Unchanged self.old self.new) (Gives result (λ _. IsSet self.new self.old.width (without_mark (marks_of self.old) m))) }
    {
        if m >= self.width {
            return Err(Refusal::MarkTooHigh);
        }
        take_mark(&mut self.words, m);
        Ok(())
    }

    // Adds the marks of the other set.
    pub fn union_with(&mut self, other: &MarkSet) -> Result<(), Refusal>
        ensures { Test (self.old.width ≢ other.now.width) (Refuses result 7 × Unchanged self.old self.new) (Gives result (λ _. IsSet self.new self.old.width (marks_of self.old ∪ marks_of other.now))) }
    {
        check_set_width(other, self.width)?;
        self.words = words_united(&self.words, &other.words);
        Ok(())
    }

    // Keeps the marks that the other set holds too.
    pub fn intersect_with(&mut self, other: &MarkSet) -> Result<(), Refusal>
        ensures { Test (self.old.width ≢ other.now.width) (Refuses result 7 × Unchanged self.old self.new) (Gives result (λ _. IsSet self.new self.old.width (marks_of self.old ∩ marks_of other.now))) }
    {
        check_set_width(other, self.width)?;
        self.words = words_shared(&self.words, &other.words);
        Ok(())
    }

    // Takes out the marks of the other set.
    pub fn subtract(&mut self, other: &MarkSet) -> Result<(), Refusal>
        ensures { Test (self.old.width ≢ other.now.width) (Refuses result 7 × Unchanged self.old self.new) (Gives result (λ _. IsSet self.new self.old.width (marks_of self.old ∖ marks_of other.now))) }
    {
        check_set_width(other, self.width)?;
        self.words = words_apart(&self.words, &other.words);
        Ok(())
    }

    // Whether every mark of the set is one of the other's.
    pub fn is_subset(&self, other: &MarkSet) -> Result<bool, Refusal>
        ensures { Test (self.now.width ≢ other.now.width) (Refuses result 7) (Gives result (λ b. Decides b (marks_of self.now ⊆ marks_of other.now))) }
    {
        check_set_width(other, self.width)?;
        Ok(words_within(&self.words, &other.words))
    }

    // Whether the two sets hold the same marks.
    pub fn same_marks(&self, other: &MarkSet) -> Result<bool, Refusal>
        ensures { Test (self.now.width ≢ other.now.width) (Refuses result 7) (Gives result (λ b. Decides b (marks_of self.now ≡ marks_of other.now))) }
    {
        check_set_width(other, self.width)?;
        Ok(words_same(&self.words, &other.words))
    }

    // The lowest mark at or after `at`, where there is one; from the width on there is none.
    pub fn next(&self, at: u16) -> Option<u16>
        ensures next { Next (marks_of self.now) at result }
        ensures within { IfSome result (λ m. m < self.now.width) }
    {
        self.next_mark(at)
    }

    // How many marks the set holds.
    pub fn count(&self) -> u16
        ensures { result ≡ size self.now.width (marks_of self.now) }
    {
        self.count_marks()
    }

    // How many marks of the width lie in both sets, in neither, in this one alone and in the other alone.
    pub fn overlap(&self, other: &MarkSet) -> Result<Overlap, Refusal>
        ensures { Test (self.now.width ≢ other.now.width) (Refuses result 7) (Gives result (Overlaps self.now.width (below self.now.width) (marks_of self.now) (marks_of other.now))) }
    {
        check_set_width(other, self.width)?;
        Ok(self.count_overlap(other))
    }
}
