// Which heads the book denies at a set.
ghost use Rattle.std.specs.Prelude.{◌≡◌, ◌<◌};
ghost use Rattle.std.specs.List.{AllByRecursion};
ghost use Rattle.marks.specs.MarkSets.{marks_of, IsSet};
ghost use Rattle.marks.specs.Refusals.{Gives};
ghost use Rattle.marks.specs.Sets.{◌⊆◌, with_mark};
ghost use Rattle.readings.specs.Books.{Clashes};
ghost use Rattle.settling.specs.Denials.{HeadIn, denied_below, DeniesHeads, OnlyDenied, Clean, CleanAround, ClosedWith, CleanIfAny};

use crate::trip::Trip;
use books::book::TermBook;
use marks::refusal::Refusal;
use marks::set::MarkSet;

// Adds the mark to the clean set and closes it, on from the set as it was. Says whether the book clashes with the mark.
fn close_with<B: TermBook>(book: &B, set: &mut MarkSet, m: u16) -> Result<bool, Refusal>
    requires mark { m < (B.TermBook.book book.now).width }
    requires clean { Clean (B.TermBook.book book.now) set.old }
    ensures { Gives result (ClosedWith (B.TermBook.book book.now) m set.old set.new) }
{
    let closed = *set;
    set.insert(m)?;
    book.close_on(set, &closed)
}

// The clean set with the mark added, closed; none if the book clashes with the mark.
fn clean_with<B: TermBook>(book: &B, set: &MarkSet, m: u16) -> Result<Option<MarkSet>, Refusal>
    requires mark { m < (B.TermBook.book book.now).width }
    requires clean { Clean (B.TermBook.book book.now) set.now }
    ensures { Gives result (CleanIfAny (B.TermBook.book book.now) (with_mark (marks_of set.now) m)) }
{
    let mut with = *set;
    if close_with(book, &mut with, m)? {
        return Ok(None);
    }
    Ok(Some(with))
}

// Whether the book denies the mark at the clean set. The group is a clean set around that one, so none of its marks is denied. It takes
// the mark in where the book does not clash then; else the mark is tried alone, and begins a new group if it is not denied.
fn denies<B: TermBook>(book: &B, at: &MarkSet, m: u16, group: &mut MarkSet) -> Result<bool, Refusal>
    requires mark { m < (B.TermBook.book book.now).width }
    requires clean { Clean (B.TermBook.book book.now) at.now }
    requires group { CleanAround (B.TermBook.book book.now) (marks_of at.now) group.old }
    ensures denied { Gives result (λ b. b ≡ (B.TermBook.book book.now).clash (with_mark (marks_of at.now) m)) }
    ensures group { Gives result (λ _. CleanAround (B.TermBook.book book.now) (marks_of at.now) group.new) }
{
    if group.contains(m) {
        return Ok(false);
    }
    if let Some(greater) = clean_with(book, group, m)? {
        *group = greater;
        return Ok(false);
    }
    if group.same_marks(at)? {
        return Ok(true);
    }
    if let Some(alone) = clean_with(book, at, m)? {
        *group = alone;
        return Ok(false);
    }
    Ok(true)
}

// The marks among `tried` that the book denies at the clean set. A mark that has come into the group with others needs no closing, any
// other needs one or two.
pub(crate) fn denied_among<B: TermBook>(
    book: &B,
    at: &MarkSet,
    tried: &MarkSet,
) -> Result<MarkSet, Refusal>
    requires clean { Clean (B.TermBook.book book.now) at.now }
    requires tried { tried.now.width ≡ (B.TermBook.book book.now).width }
    ensures { Gives result (λ d. IsSet d (B.TermBook.book book.now).width (denied_below (B.TermBook.book book.now) (marks_of at.now) (marks_of tried.now) (B.TermBook.book book.now).width)) }
{
    let mut denied = MarkSet::empty(book.width())?;
    let mut group = *at;
    let mut from = 0;
    while let Some(m) = tried.next(from) {
        if denies(book, at, m, &mut group)? {
            denied.insert(m)?;
        }
        from = m + 1;
    }
    Ok(denied)
}

impl<B: TermBook> Trip<'_, B> {
    // The facts and the heads of the fare lines.
    fn all_heads(&self) -> MarkSet
        ensures width { result.width ≡ self.now.facts.now.width }
        ensures facts { marks_of self.now.facts.now ⊆ marks_of result }
        ensures heads { AllByRecursion (HeadIn self.now.facts.now.width (marks_of result)) self.now.lines.now }
    {
        let mut heads = *self.facts;
        for line in self.lines {
            let _ = heads.insert(line.head);
        }
        heads
    }

    // The heads that the book denies at the set, where some are known and the book clashes at what grew from it. Where nothing grew, it
    // clashes at the set itself.
    pub(crate) fn denied_under(
        &self,
        at: &MarkSet,
        grown: &MarkSet,
        known: &MarkSet,
    ) -> Result<MarkSet, Refusal>
        requires at { at.now.width ≡ (B.TermBook.book self.now.book.now).width }
        requires grown { grown.now.width ≡ (B.TermBook.book self.now.book.now).width }
        requires clash { Clashes (B.TermBook.book self.now.book.now) (marks_of grown.now) }
        requires known { OnlyDenied (B.TermBook.book self.now.book.now) self.now.lines.now self.now.facts.now (marks_of at.now) known.now }
        ensures { Gives result (DeniesHeads (B.TermBook.book self.now.book.now) self.now.lines.now self.now.facts.now (marks_of at.now)) }
    {
        if grown.same_marks(at)? {
            return MarkSet::full(self.book.width());
        }
        self.denied_heads(at, known)
    }

    // The heads that the book denies at the set, where some are known. Where it clashes there it denies them all; elsewhere it denies
    // none that the closure holds, so only the others are tried.
    pub(crate) fn denied_heads(&self, at: &MarkSet, known: &MarkSet) -> Result<MarkSet, Refusal>
        requires at { at.now.width ≡ (B.TermBook.book self.now.book.now).width }
        requires known { OnlyDenied (B.TermBook.book self.now.book.now) self.now.lines.now self.now.facts.now (marks_of at.now) known.now }
        ensures { Gives result (DeniesHeads (B.TermBook.book self.now.book.now) self.now.lines.now self.now.facts.now (marks_of at.now)) }
    {
        let mut closed = *at;
        if self.book.close(&mut closed)? {
            return MarkSet::full(self.book.width());
        }
        let mut tried = self.all_heads();
        tried.subtract(&closed)?;
        tried.subtract(known)?;
        let mut denied = denied_among(self.book, &closed, &tried)?;
        denied.union_with(known)?;
        Ok(denied)
    }
}
