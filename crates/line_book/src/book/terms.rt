// The calls on a line book.
ghost use Rattle.std.specs.Prelude.{[]};
ghost use Rattle.marks.specs.MarkSets.{BadWidth};
ghost use Rattle.marks.specs.Refusals.{Refuses, Gives, Test};
ghost use Rattle.lines.specs.Lawful.{LawfulTerm, AllLawful};
ghost use Rattle.line_book.specs.LineBooks.{meaning, IsLineBook, SameBook};
ghost use Rattle.line_book.specs.Growing.{line_lawful};
ghost use Rattle.line_book.specs.Seeing.{heads_below};

use super::LineBook;
use books::book::TermBook;
use books::table::Table;
use books::whole::give_all;
use lines::bring::{bring_all, bring_on};
use lines::check::check_records;
use lines::index::Index;
use lines::term::{MOST_TERMS, TermLine};
use marks::refusal::Refusal;
use marks::set::MarkSet;
use marks::width::{check_set_width, check_width};

impl LineBook {
    // A book without lines: it adds nothing and never clashes.
    pub fn new(width: u16) -> Result<LineBook, Refusal>
        ensures { Test (BadWidth width) (Refuses result 7) (Gives result (λ b. IsLineBook b width [])) }
    {
        check_width(width)?;
        Ok(LineBook {
            width,
            lines: Table::new(TermLine::default()),
            index: Index::new(),
        })
    }

    // Puts these lines in the place of all that the book had.
    pub fn fill(&mut self, lines: &[TermLine]) -> Result<(), Refusal>
        ensures { Test (AllLawful (LawfulTerm self.old.width) 512 lines.now → ⊥) (Refuses result 8 × SameBook self.old self.new) (Gives result (λ _. IsLineBook self.new self.old.width lines.now)) }
    {
        check_records(lines, MOST_TERMS, self.width)?;
        let Ok(none) = MarkSet::empty(self.width) else {
            unreachable()
        };
        self.lines.fill(lines);
        self.index.fill::<(), TermLine>(lines, none);
        Ok(())
    }
}

impl TermBook for LineBook {
    ghost book = { meaning };

    ghost lawful = { λ b. line_lawful b.width b.lines (heads_below b.width b.lines b.lawful) };

    fn width(&self) -> u16 {
        self.width
    }

    fn close(&self, set: &mut MarkSet) -> Result<bool, Refusal> {
        check_set_width(set, self.width)?;
        let clash = bring_all(self.lines.as_slice(), &self.index, &(), set);
        give_all(clash, set);
        Ok(clash)
    }

    // By the marks that are new.
    fn close_on(&self, set: &mut MarkSet, closed: &MarkSet) -> Result<bool, Refusal> {
        check_set_width(set, self.width)?;
        let clash = bring_on(self.lines.as_slice(), &self.index, &(), closed, set)?;
        give_all(clash, set);
        Ok(clash)
    }
}
