// What the least reading says of one mark.
ghost use Rattle.std.specs.Prelude.{◌≡◌, Some};
ghost use Rattle.readings.specs.Says.{the_answer};

use std::fmt;

#[derive(Clone, Copy, Debug, PartialEq, Eq)]
pub enum Answer {
    // certainly not so
    Not = 0,
    // certainly so
    Holds = 1,
    // neither is certain
    Open = 2,
    // certainly so and certainly not so: facts, lines and book contradict each other here
    Both = 3,
}

impl Answer {
    pub fn number(self) -> u8
        ensures { result ≡ (the_answer self).number }
    {
        self as u8
    }
}

impl fmt::Display for Answer {
    ghost output = { λ a. Some (the_answer a).word };

    fn fmt<W: fmt::Write>(&self, f: &mut fmt::Formatter<W>) -> fmt::Result {
        f.write_str(match self {
            Answer::Not => "not",
            Answer::Holds => "holds",
            Answer::Open => "open",
            Answer::Both => "both",
        })
    }
}
