// What the tests make: lists and term lines from a few marks.
use lines::list::MarkList;
use lines::term::{Kind, TermLine};
use marks::refusal::Refusal;

// A list of these marks, at most eight; the places behind them hold 9999.
pub(crate) fn list(marks: &[u16]) -> MarkList {
    let mut places = [9999; 8];
    for (place, m) in places.iter_mut().zip(marks) {
        *place = *m;
    }
    MarkList {
        count: marks.len().min(8) as u8,
        marks: places,
    }
}

pub(crate) fn gives(conditions: MarkList, head: u16) -> TermLine {
    TermLine {
        kind: Kind::Gives,
        head,
        conditions,
    }
}

// A denial; its head is an unused place and holds 9999.
pub(crate) fn denies(conditions: MarkList) -> TermLine {
    TermLine {
        kind: Kind::Denies,
        head: 9999,
        conditions,
    }
}

// Whether the call was refused with that number.
pub(crate) fn refused<T: Drop>(r: Result<T, Refusal>, number: u8) -> bool {
    r.is_err_and(|why| why.number() == number)
}
