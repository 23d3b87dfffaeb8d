// What the tests make: the sample tariff, sheets, and looks at what was answered.
use line_book::book::LineBook;
use lines::fare::FareLine;
use lines::list::MarkList;
use lines::term::{Kind, TermLine};
use marks::refusal::Refusal;
use readings::answer::Answer;
use sheet::reply::Reply;
use sheet::sheet::Sheet;

fn one(a: u16) -> MarkList {
    MarkList {
        count: 1,
        marks: [a, 0, 0, 0, 0, 0, 0, 0],
    }
}

pub(crate) fn fare(head: u16, condition: u16, exception: u16) -> FareLine {
    FareLine {
        head,
        conditions: one(condition),
        unless: one(exception),
    }
}

// The fare lines of the sample tariff, of width 5: "1 if 3 unless 2" and "4 if 3 unless 1".
pub(crate) fn sample_fares() -> [FareLine; 2] {
    [fare(1, 3, 2), fare(4, 3, 1)]
}

// Its terms: "0 gives 2" and "1 with 2 is denied".
pub(crate) fn sample_book() -> Result<LineBook, Refusal> {
    let gives = TermLine {
        kind: Kind::Gives,
        head: 2,
        conditions: one(0),
    };
    let denied = TermLine {
        kind: Kind::Denies,
        head: 0,
        conditions: MarkList {
            count: 2,
            marks: [1, 2, 0, 0, 0, 0, 0, 0],
        },
    };
    let mut book = LineBook::new(5)?;
    book.fill(&[gives, denied])?;
    Ok(book)
}

// A sheet on which these facts stand.
pub(crate) fn sheet(width: u16, facts: &[u16]) -> Result<Sheet, Refusal> {
    let mut made = Sheet::new(width)?;
    for m in facts {
        made.enter(*m)?;
    }
    Ok(made)
}

// Whether the call was refused with that number.
pub(crate) fn refused<T: Drop>(r: Result<T, Refusal>, number: u8) -> bool {
    r.is_err_and(|why| why.number() == number)
}

// Whether an enter or a strike was done.
pub(crate) fn done(r: Result<Reply, Refusal>) -> bool {
    matches!(r, Ok(Reply::Done))
}

// Whether a settle gave the verdict of that number, after so many rounds.
pub(crate) fn settled(r: Result<Reply, Refusal>, verdict: u8, rounds: u16) -> bool {
    matches!(
        r,
        Ok(Reply::Settled(found)) if found.verdict.number() == verdict && found.rounds == rounds
    )
}

// Whether an ask had this answer.
pub(crate) fn told(r: Result<Reply, Refusal>, answer: Answer) -> bool {
    matches!(r, Ok(Reply::Told(a)) if a == answer)
}
