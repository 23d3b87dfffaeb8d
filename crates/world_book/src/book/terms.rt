// The calls on a world book.
ghost use Rattle.std.specs.Prelude.{◌<◌, [], map, length};
ghost use Rattle.marks.specs.MarkSets.{marks_of, BadWidth};
ghost use Rattle.marks.specs.Refusals.{Refuses, Gives, Test};
ghost use Rattle.world_book.specs.WorldBooks.{meaning, IsWorldBook, SameBook, worlds_of};
ghost use Rattle.world_book.specs.Worlds.{AllOfWidth};
ghost use Rattle.world_book.specs.Common.{world_lawful};

use super::{MOST_WORLDS, WorldBook};
use crate::worlds::{all_of_width, common_marks};
use books::book::TermBook;
use books::table::Table;
use marks::refusal::Refusal;
use marks::set::MarkSet;
use marks::width::check_set_width;

impl WorldBook {
    // A book without worlds: it clashes at every set.
    pub fn new(width: u16) -> Result<WorldBook, Refusal>
        ensures { Test (BadWidth width) (Refuses result 7) (Gives result (λ b. IsWorldBook b width [])) }
    {
        let blank = MarkSet::empty(width)?;
        Ok(WorldBook {
            width,
            worlds: Table::new(blank),
        })
    }

    // Puts these worlds in the place of all that the book had.
    pub fn fill(&mut self, worlds: &[MarkSet]) -> Result<(), Refusal>
        ensures { Test (AllOfWidth self.old.width worlds.now → ⊥) (Refuses result 7 × SameBook self.old self.new) (Test (64 < length worlds.now) (Refuses result 8 × SameBook self.old self.new) (Gives result (λ _. IsWorldBook self.new self.old.width (map marks_of worlds.now)))) }
    {
        if !all_of_width(worlds, self.width) {
            return Err(Refusal::Width);
        }
        if worlds.len() > MOST_WORLDS {
            return Err(Refusal::Record);
        }
        self.worlds.fill(worlds);
        Ok(())
    }
}

impl TermBook for WorldBook {
    ghost book = { meaning };

    ghost lawful = { λ b. world_lawful b.width (worlds_of b) };

    fn width(&self) -> u16 {
        self.width
    }

    fn close(&self, set: &mut MarkSet) -> Result<bool, Refusal> {
        check_set_width(set, self.width)?;
        Ok(common_marks(self.worlds.as_slice(), set))
    }
}
