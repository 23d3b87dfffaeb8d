// The test of records for a width.
ghost use Rattle.std.specs.Prelude.{ℕ, Decides};
ghost use Rattle.std.specs.List.{AllByRecursion};
ghost use Rattle.marks.specs.Refusals.{Refuses, Gives, Test};
ghost use Rattle.lines.specs.Lawful.{AllLawful};

use marks::refusal::Refusal;

// A record in the caller's memory, which may hold anything.
pub trait Record {
    // when it is lawful for a width
    ghost lawful: { ℕ → Self → Type 0 };

    fn is_lawful(&self, width: u16) -> bool
        ensures { Decides result (lawful width self.now) };
}

// Whether each record is lawful for the width.
fn all_lawful<R: Record>(records: &[R], width: u16) -> bool
    ensures { Decides result (AllByRecursion (R.Record.lawful width) records.now) }
{
    records.iter().all(|record| record.is_lawful(width))
}

// Refused exactly when there are more than `most` records or one of them is not lawful for the width.
pub fn check_records<R: Record>(records: &[R], most: usize, width: u16) -> Result<(), Refusal>
    ensures { Test (AllLawful (R.Record.lawful width) most records.now → ⊥) (Refuses result 8) (Gives result (λ _. AllLawful (R.Record.lawful width) most records.now)) }
{
    if records.len() > most || !all_lawful(records, width) {
        return Err(Refusal::Record);
    }
    Ok(())
}
