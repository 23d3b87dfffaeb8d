// The calls that make a run: enter, strike, settle and ask.
ghost use Rattle.std.specs.Prelude.{List, []};
ghost use Rattle.marks.specs.MarkSets.{BadWidth};
ghost use Rattle.marks.specs.Refusals.{Refuses, Gives, Test};
ghost use Rattle.readings.specs.Books.{Book};
ghost use Rattle.lines.specs.declared.fare.FareLine.{FareLine as Fare};
ghost use Rattle.sheet.specs.Steps.{NewSheet, Step, replied};
ghost use Rattle.sheet.specs.declared.call.Call.TheVariants.{Enter, Strike, Settle, Ask};
ghost use Rattle.sheet.specs.declared.reply.Reply.TheVariants.{Done, Settled as Found, Told};

use super::facts::settle_facts;
use super::{Sheet, State};
use crate::call::Call;
use crate::reply::{Reply, Settlement};
use books::bare::BareBook;
use books::book::TermBook;
use lines::fare::FareLine;
use marks::refusal::Refusal;
use marks::set::MarkSet;
use readings::answer::Answer;
use readings::method::Method;

impl Sheet {
    // A sheet without facts, unsettled.
    pub fn new(width: u16) -> Result<Sheet, Refusal>
        ensures { Test (BadWidth width) (Refuses result 7) (Gives result (NewSheet width)) }
    {
        Ok(Sheet {
            facts: MarkSet::empty(width)?,
            state: State::Unsettled,
        })
    }

    // Performs the call. What it does depends on the sheet's state and the call together; lines and book are those that a
    // settle goes by, and no other call looks at them.
    pub fn perform<B: TermBook>(
        &mut self,
        call: Call,
        lines: &[FareLine],
        book: &B,
    ) -> Result<Reply, Refusal>
        ensures { Step (B.TermBook.book book.now) lines.now self.old call result self.new }
    {
        match (call, &self.state) {
            (Call::Enter(m) | Call::Strike(m) | Call::Ask(m), _) if m >= self.facts.width() => {
                Err(Refusal::MarkTooHigh)
            }
            (Call::Enter(m), _) if self.facts.contains(m) => Err(Refusal::FactStands),
            (Call::Enter(m), _) => {
                self.facts.insert(m)?;
                self.state = State::Unsettled;
                Ok(Reply::Done)
            }
            (Call::Strike(m), _) if !self.facts.contains(m) => Err(Refusal::NoSuchFact),
            (Call::Strike(m), _) => {
                self.facts.remove(m)?;
                self.state = State::Unsettled;
                Ok(Reply::Done)
            }
            (Call::Settle(method), _) => {
                let judged = settle_facts(&self.facts, lines, book, method)?;
                self.state = State::Settled(judged.settled.reading);
                Ok(Reply::Settled(Settlement {
                    verdict: judged.verdict,
                    rounds: judged.settled.rounds,
                }))
            }
            (Call::Ask(_), State::Unsettled) => Err(Refusal::NotSettled),
            (Call::Ask(m), State::Settled(reading)) => Ok(Reply::Told(reading.answer(m))),
        }
    }

    // Performs the call without lines, by a book that says nothing: an enter, a strike and an ask look at neither.
    fn perform_alone(&mut self, call: Call) -> Result<Reply, Refusal>
        ensures { (B : Book) × Step B [] self.old call result self.new }
    {
        let book = BareBook::new(self.facts.width())?;
        self.perform(call, &[], &book)
    }

    // Makes the mark stand as a fact; the sheet is then unsettled.
    pub fn enter(&mut self, m: u16) -> Result<(), Refusal>
        ensures { (B : Book) (lines : List Fare) → Step B lines self.old (Enter m) (replied (λ _. Done) result) self.new }
    {
        self.perform_alone(Call::Enter(m))?;
        Ok(())
    }

    // Ends that a mark stands as a fact; the sheet is then unsettled.
    pub fn strike(&mut self, m: u16) -> Result<(), Refusal>
        ensures { (B : Book) (lines : List Fare) → Step B lines self.old (Strike m) (replied (λ _. Done) result) self.new }
    {
        self.perform_alone(Call::Strike(m))?;
        Ok(())
    }

    // Settles the sheet with the least reading of its facts; this may be repeated.
    pub fn settle<B: TermBook>(
        &mut self,
        lines: &[FareLine],
        book: &B,
        method: Method,
    ) -> Result<Settlement, Refusal>
        ensures { Step (B.TermBook.book book.now) lines.now self.old (Settle method) (replied Found result) self.new }
    {
        match self.perform(Call::Settle(method), lines, book)? {
            Reply::Settled(settlement) => Ok(settlement),
            _ => unreachable(),
        }
    }

    // What the sheet, as it was settled, says of the mark.
    pub fn ask(&self, m: u16) -> Result<Answer, Refusal>
        ensures { (B : Book) (lines : List Fare) → Step B lines self.now (Ask m) (replied Told result) self.now }
    {
        // asking changes nothing, and this copy shows it
        let mut sheet = *self;
        match sheet.perform_alone(Call::Ask(m))? {
            Reply::Told(answer) => Ok(answer),
            _ => unreachable(),
        }
    }
}
