// The bare book.
ghost use Rattle.std.specs.Prelude.{◌≡◌};
ghost use Rattle.marks.specs.MarkSets.{BadWidth};
ghost use Rattle.marks.specs.Refusals.{Refuses, Gives, Test};
ghost use Rattle.readings.specs.WellFounded.{bare};
ghost use Rattle.std.proofs.Common.{rules};

use crate::book::TermBook;
use marks::refusal::Refusal;
use marks::set::MarkSet;
use marks::width::{check_set_width, check_width};

// It adds nothing and never clashes.
#[derive(Clone, Copy)]
pub struct BareBook {
    width: u16,
}

impl BareBook {
    pub fn new(width: u16) -> Result<BareBook, Refusal>
        ensures { Test (BadWidth width) (Refuses result 7) (Gives result (λ b. b.width ≡ width)) }
    {
        check_width(width)?;
        Ok(BareBook { width })
    }
}

impl TermBook for BareBook {
    ghost book = { λ b. bare b.width };

    ghost lawful = { Prim.search rules };

    fn width(&self) -> u16 {
        self.width
    }

    fn close(&self, set: &mut MarkSet) -> Result<bool, Refusal> {
        check_set_width(set, self.width)?;
        Ok(false)
    }
}
