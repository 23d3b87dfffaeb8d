// What a term book is and does.
ghost use Rattle.std.specs.Prelude.{◌≡◌};
ghost use Rattle.readings.specs.Books.{Book, Lawful};
ghost use Rattle.books.specs.Closing.{Closes, ClosesOn};

use marks::refusal::Refusal;
use marks::set::MarkSet;
use marks::width::check_set_width;

// A kind of book gives its meaning, keeps the laws and closes sets. Nothing else is asked of it, and nothing else is known of it
// above.
pub trait TermBook {
    ghost book: { Self → Book };

    fn width(&self) -> u16
        ensures { result ≡ (book self.now).width };

    // Turns the set into its closure, and says whether the book clashes at the set as it was given.
    fn close(&self, set: &mut MarkSet) -> Result<bool, Refusal>
        ensures { Closes (book self.now) set.old set.new result };

    // The same, going on from a second set: where that is its own closure, has no clash and lies within the first, only what the
    // other marks bring is still to be found. A kind that can go by those marks has less to do; any other closes anew.
    #[tactic(auto, using(crate::proofs::ClosingOn::closes_anew))]
    fn close_on(&self, set: &mut MarkSet, closed: &MarkSet) -> Result<bool, Refusal>
        ensures { ClosesOn (book self.now) closed.now set.old set.new result }
    {
        check_set_width(closed, self.width())?;
        self.close(set)
    }

    ghost lawful: { (b : Self) → Lawful (book b) };
}
