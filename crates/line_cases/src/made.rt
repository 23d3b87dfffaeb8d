// What the tests make: lists and lines from a few marks. Unused places hold 9999.
use lines::fare::FareLine;
use lines::list::MarkList;
use lines::term::{Kind, TermLine};
use marks::refusal::Refusal;

// A list of these marks, at most eight; the places behind them hold 9999.
pub(crate) fn list(marks: &[u16]) -> MarkList {
    let mut places = [9999; 8];
    for (place, m) in places.iter_mut().zip(marks) {
        *place = *m;
    }
    MarkList {
        count: marks.len().min(8) as u8,
        marks: places,
    }
}

pub(crate) fn fare(head: u16, conditions: MarkList, unless: MarkList) -> FareLine {
    FareLine {
        head,
        conditions,
        unless,
    }
}

pub(crate) fn term(kind: Kind, head: u16, conditions: MarkList) -> TermLine {
    TermLine {
        kind,
        head,
        conditions,
    }
}

// Whether the call was refused with that number.
pub(crate) fn refused(r: Result<(), Refusal>, number: u8) -> bool {
    r.is_err_and(|why| why.number() == number)
}
