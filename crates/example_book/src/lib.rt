// A kind of book of one's own, as small as can be: some marks always hold.
//
// This is all that a kind owes: a meaning (specs/Always.antt), that it keeps the laws of books (specs/Laws.antt), its width, and
// closing. What is proved of every book then holds of it too; a barred book can stand on it, for instance.
#![tactic(auto)]

ghost use Rattle.example_book.specs.Always.{always};
ghost use Rattle.marks.specs.MarkSets.{marks_of};
ghost use Rattle.example_book.specs.Laws.{always_lawful};

use books::book::TermBook;
use marks::refusal::Refusal;
use marks::set::MarkSet;

// The marks of this set hold wherever anything is said.
#[derive(Clone, Copy)]
pub struct AlwaysBook {
    pub marks: MarkSet,
}

impl TermBook for AlwaysBook {
    ghost book = { λ b. always b.marks.width (marks_of b.marks) };

    ghost lawful = { λ b. always_lawful b.marks.width (marks_of b.marks) b.marks.inside };

    fn width(&self) -> u16 {
        self.marks.width()
    }

    fn close(&self, set: &mut MarkSet) -> Result<bool, Refusal> {
        set.union_with(&self.marks)?;
        Ok(false)
    }
}
