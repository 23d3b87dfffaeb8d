// What calls on a sheet answer when they are not refused.
use readings::answer::Answer;
use readings::verdict::Verdict;

// What settling answers: the verdict, and how many rounds the method made.
#[derive(Clone, Copy, Debug, PartialEq, Eq)]
pub struct Settlement {
    pub verdict: Verdict,
    pub rounds: u16,
}

#[derive(Clone, Copy, Debug, PartialEq, Eq)]
pub enum Reply {
    // an enter or a strike was done
    Done,
    // a settle was
    Settled(Settlement),
    // the answer to an ask
    Told(Answer),
}

// How many marks of a settled sheet hold, are not, are open and are both.
#[derive(Clone, Copy, Debug, PartialEq, Eq)]
pub struct Counts {
    pub holds: u16,
    pub not: u16,
    pub open: u16,
    pub both: u16,
}
