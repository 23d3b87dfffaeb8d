// Why a call is refused.
ghost use Rattle.std.specs.Prelude.{◌≡◌};
ghost use Rattle.marks.specs.Refusals.{number};

use std::fmt;

// A refused call answers one of these and changes nothing.
#[derive(Clone, Copy, Debug, PartialEq)]
pub enum Refusal {
    // the bytes end where a number must start, or inside an unfinished one
    BytesEnd = 1,
    // a number has more than three bytes, is not in its shortest form, or exceeds 65,535
    Malformed = 2,
    // a number lies outside the limit for its place
    OutsideLimit = 3,
    // a list in a file or a facts string does not ascend strictly
    NotAscending = 4,
    // the caller has fewer records than the file counts
    FewRecords = 5,
    // bytes remain behind the last number
    BytesRemain = 6,
    // a width is outside 1 to 512, or the widths within one call differ
    Width = 7,
    // a record or a list in the caller's memory breaks a limit or does not ascend
    Record = 8,
    // a mark given by itself is at or above the width
    MarkTooHigh = 9,
    // the fact to enter stands already
    FactStands = 10,
    // the fact to strike does not stand
    NoSuchFact = 11,
    // the sheet is not settled
    NotSettled = 12,
    // the caller's output is too short
    OutputShort = 13,
}

impl Refusal {
    pub fn number(self) -> u8
        ensures { result ≡ number self }
    {
        self as u8
    }
}

// What it means, in a sentence.
impl fmt::Display for Refusal {
    ghost use Rattle.std.specs.Prelude.{Some};
    ghost use Rattle.marks.specs.Sentences.{sentence};

    ghost output = { λ r. Some (sentence r) };

    fn fmt<W: fmt::Write>(&self, f: &mut fmt::Formatter<W>) -> fmt::Result {
        f.write_str(match self {
            Refusal::BytesEnd => "the bytes end where a number must start, or inside one",
            Refusal::Malformed => "a number is too long, not in its shortest form, or above 65,535",
            Refusal::OutsideLimit => "a number lies outside the limit for its place",
            Refusal::NotAscending => "the marks of a list do not ascend",
            Refusal::FewRecords => "there are fewer records than the file counts",
            Refusal::BytesRemain => "bytes remain behind the last number",
            Refusal::Width => "a width is outside 1 to 512, or two widths differ",
            Refusal::Record => "a line, bar or list breaks a limit or does not ascend",
            Refusal::MarkTooHigh => "a mark is at or above the width",
            Refusal::FactStands => "the fact to enter stands already",
            Refusal::NoSuchFact => "the fact to strike does not stand",
            Refusal::NotSettled => "the sheet is not settled",
            Refusal::OutputShort => "the output is too short",
        })
    }
}

impl std::error::Error for Refusal {}
