// Fare lines, term lines and bars.
use crate::made::{fare, list, refused, term};
use lines::bar::Bar;
use lines::check::check_records;
use lines::fare::MOST_FARES;
use lines::list::MarkList;
use lines::term::Kind;

// 1024 fare lines are taken and 1025 are not; 8 conditions are and 9 are not.
#[test]
fn limits(rt: HostRuntime) {
    let line = fare(8, list(&[]), list(&[]));
    assert!(rt; check_records(&[line; 1024], MOST_FARES, 9).is_ok());
    assert!(rt; refused(check_records(&[line; 1025], MOST_FARES, 9), 8));
    let marks = [0, 1, 2, 3, 4, 5, 6, 8];
    let eight = MarkList { count: 8, marks };
    let nine = MarkList { count: 9, marks };
    assert!(rt; check_records(&[fare(8, eight, eight)], 1, 9).is_ok());
    assert!(rt; refused(check_records(&[fare(8, nine, list(&[]))], 1, 9), 8));
    assert!(rt; refused(check_records(&[fare(8, list(&[]), nine)], 1, 9), 8));
}

// Marks ascend strictly and lie below the width; unused places, and the head of a denial, may hold anything.
#[test]
fn lawful_marks(rt: HostRuntime) {
    assert!(rt; check_records(&[fare(8, list(&[0, 8]), list(&[8]))], 1, 9).is_ok());
    assert!(rt; refused(check_records(&[fare(9, list(&[]), list(&[]))], 1, 9), 8));
    assert!(rt; refused(check_records(&[fare(0, list(&[1, 1]), list(&[]))], 1, 9), 8));
    assert!(rt; refused(check_records(&[fare(0, list(&[]), list(&[1, 0]))], 1, 9), 8));
    assert!(rt; refused(check_records(&[fare(0, list(&[]), list(&[0, 9]))], 1, 9), 8));
    assert!(rt; check_records(&[term(Kind::Denies, 9999, list(&[0]))], 1, 9).is_ok());
    assert!(rt;
        refused(
            check_records(&[term(Kind::Gives, 9999, list(&[0]))], 1, 9),
            8
        )
    );
    assert!(rt; check_records(&[Bar { low: 0, high: 8 }], 1, 9).is_ok());
    assert!(rt; refused(check_records(&[Bar { low: 8, high: 8 }], 1, 9), 8));
}

// Lines are compared in their used places alone.
#[test]
fn compared(rt: HostRuntime) {
    let other = MarkList {
        count: 1,
        marks: [3; 8],
    };
    assert!(rt; fare(1, list(&[3]), list(&[])) == fare(1, other, list(&[])));
    assert!(rt; fare(1, list(&[3]), list(&[])) != fare(2, list(&[3]), list(&[])));
    assert!(rt; fare(1, list(&[3]), list(&[])) != fare(1, list(&[]), list(&[3])));
    assert!(rt; term(Kind::Denies, 1, list(&[3])) == term(Kind::Denies, 2, other));
    assert!(rt; term(Kind::Gives, 1, list(&[3])) != term(Kind::Gives, 2, list(&[3])));
    assert!(rt; term(Kind::Gives, 1, list(&[3])) != term(Kind::Denies, 1, list(&[3])));
    assert!(rt; Bar { low: 1, high: 2 } != Bar { low: 1, high: 3 });
}
