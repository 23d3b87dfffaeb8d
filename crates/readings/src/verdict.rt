// What the least reading says of the facts as a whole.
ghost use Rattle.std.specs.Prelude.{◌≡◌, Some};
ghost use Rattle.readings.specs.Says.{the_verdict};

use std::fmt;

#[derive(Clone, Copy, Debug, PartialEq, Eq)]
pub enum Verdict {
    // neither of the others; whether a sound reading exists is another question
    Clear = 0,
    // the book denies at T the head of a line, and this tells in the yield of T
    Suspect = 1,
    // facts, lines and book contradict each other
    Broken = 2,
}

impl Verdict {
    pub fn number(self) -> u8
        ensures { result ≡ (the_verdict self).number }
    {
        self as u8
    }
}

impl fmt::Display for Verdict {
    ghost output = { λ v. Some (the_verdict v).word };

    fn fmt<W: fmt::Write>(&self, f: &mut fmt::Formatter<W>) -> fmt::Result {
        f.write_str(match self {
            Verdict::Clear => "clear",
            Verdict::Suspect => "suspect",
            Verdict::Broken => "broken",
        })
    }
}
