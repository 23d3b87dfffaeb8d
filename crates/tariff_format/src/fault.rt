// Faults of a tariff file: a number's fault, handed up unchanged from the number to its line and from the line to the file.
ghost use Rattle.std.specs.Prelude.{◌≡◌};
ghost use Rattle.marks.specs.Refusals.{number};
ghost use Rattle.tariff_format.specs.declared.fault.FileFault.TheVariants.{Number, Line};
ghost use Rattle.tariff_format.specs.Faults.{section_number, the_file_fault, line_fault, met_at};

use tariff::fault::NumberFault;

#[derive(Clone, Copy, Debug, PartialEq)]
pub enum Section {
    Fare = 1,
    Term = 2,
}

impl Section {
    pub fn number(self) -> u8
        ensures { result ≡ section_number self }
    {
        self as u8
    }
}

// A line of a file: its section, and its index there, from 0.
#[derive(Clone, Copy, Debug, PartialEq)]
pub struct LineAt {
    pub section: Section,
    pub index: usize,
}

// A line that is refused: the fault of its number, as it was, and the line.
#[derive(Clone, Copy, Debug, PartialEq)]
pub struct LineFault {
    pub number: NumberFault,
    pub at: LineAt,
}

// A file that is refused.
#[derive(Clone, Copy, Debug, PartialEq)]
pub enum FileFault {
    // outside its lines
    Number(NumberFault),
    // in a line
    Line(LineFault),
}

impl FileFault {
    // The fault of the number, in a line or outside.
    fn cause(self) -> NumberFault
        ensures number { number result.refusal ≡ (the_file_fault self).number }
        ensures byte { result.byte ≡ (the_file_fault self).byte }
    {
        match self {
            FileFault::Number(number) | FileFault::Line(LineFault { number, .. }) => number,
        }
    }

    // The number of the refusal.
    pub fn number(self) -> u8
        ensures { result ≡ (the_file_fault self).number }
    {
        self.cause().refusal.number()
    }

    // The byte where the faulty number starts, or the first one left over.
    pub fn byte(self) -> usize
        ensures { result ≡ (the_file_fault self).byte }
    {
        self.cause().byte
    }

    // The line in which the fault was met, where it was met in one.
    pub fn line(self) -> Option<LineAt>
        ensures { result ≡ (the_file_fault self).line }
    {
        match self {
            FileFault::Number(_) => None,
            FileFault::Line(line) => Some(line.at),
        }
    }
}

impl LineAt {
    // Says of a refused number in which line it was met.
    pub fn met<T>(self, read: Result<T, NumberFault>) -> Result<T, (NumberFault, LineAt)>
        ensures { result ≡ met_at self read }
    {
        read.map_err(|number| (number, self))
    }
}

impl From<(NumberFault, LineAt)> for LineFault {
    ghost from_gives = { λ met r. r ≡ line_fault met.1 met.0 };

    fn from((number, at): (NumberFault, LineAt)) -> LineFault {
        LineFault { number, at }
    }
}

impl From<NumberFault> for FileFault {
    ghost from_gives = { λ f r. r ≡ Number f };

    fn from(fault: NumberFault) -> FileFault {
        FileFault::Number(fault)
    }
}

impl From<LineFault> for FileFault {
    ghost from_gives = { λ f r. r ≡ Line f };

    fn from(fault: LineFault) -> FileFault {
        FileFault::Line(fault)
    }
}
