// Passes, the index, and lines brought in until none adds anything.
use crate::made::{fare, list, term};
use lines::admission::Admission;
use lines::agenda::{Agenda, AllLines};
use lines::bring::{bring_all, bring_on};
use lines::growth::Growth;
use lines::index::Index;
use lines::pass::pass;
use lines::term::{Kind, TERM_CONDITIONS, TermLine};
use marks::set::MarkSet;
use std::test::Fail;

// 2 gives 3, 1 gives 2, and 1 with 2 is denied.
fn three_lines() -> [TermLine; 3] {
    [
        term(Kind::Gives, 3, list(&[2])),
        term(Kind::Gives, 2, list(&[1])),
        term(Kind::Denies, 0, list(&[1, 2])),
    ]
}

// A line fires in its turn; what a later line adds does not reach back. A denial stands where its conditions do. What came is fresh.
// A pass that adds nothing leaves both sets.
#[test]
fn term_pass(rt: HostRuntime) -> Result<(), Fail> {
    let lines = three_lines();
    let mut growth = Growth::of(MarkSet::of(4, &[1])?);
    pass(&lines, AllLines::of(&lines), &(), &mut growth);
    assert!(rt; growth.stood);
    assert!(rt; growth.set.same_marks(&MarkSet::of(4, &[1, 2])?)?);
    assert!(rt; growth.fresh.same_marks(&MarkSet::of(4, &[2])?)?);
    pass(&lines, AllLines::of(&lines), &(), &mut growth);
    assert!(rt; growth.set.same_marks(&MarkSet::of(4, &[1, 2, 3])?)?);
    assert!(rt; growth.fresh.same_marks(&MarkSet::of(4, &[2, 3])?)?);
    pass(&lines, AllLines::of(&lines), &(), &mut growth);
    assert!(rt; growth.set.same_marks(&MarkSet::of(4, &[1, 2, 3])?)?);
    assert!(rt; growth.fresh.same_marks(&MarkSet::of(4, &[2, 3])?)?);
    Ok(())
}

// A fare line is held back by an unless-mark, by a denied head, by a refuted condition.
#[test]
fn fare_pass(rt: HostRuntime) -> Result<(), Fail> {
    let lines = [
        fare(1, list(&[0]), list(&[4])),
        fare(2, list(&[0]), list(&[5])),
        fare(3, list(&[0]), list(&[])),
        fare(4, list(&[0, 5]), list(&[])),
        fare(5, list(&[]), list(&[])),
    ];
    let gate = Admission {
        exceptions: MarkSet::of(6, &[4])?,
        denied: MarkSet::of(6, &[3])?,
        refuted: MarkSet::of(6, &[5])?,
    };
    let mut growth = Growth::of(MarkSet::of(6, &[0])?);
    pass(&lines, AllLines::of(&lines), &gate, &mut growth);
    assert!(rt; !growth.stood);
    assert!(rt; growth.set.same_marks(&MarkSet::of(6, &[0, 2, 5])?)?);
    Ok(())
}

// An index names the lines with a mark, the last first, and those alone; filled again, those of the new lines.
#[test]
fn index_names(rt: HostRuntime) -> Result<(), Fail> {
    let mut index = Index::<TERM_CONDITIONS>::new();
    assert!(rt; index.touched(1).next().is_none());
    index.fill::<(), TermLine>(&three_lines(), MarkSet::empty(4)?);
    let mut touched = index.touched(1);
    assert!(rt; touched.next() == Some(2));
    assert!(rt; touched.next() == Some(1));
    assert!(rt; touched.next().is_none());
    assert!(rt; index.touched(3).next().is_none());
    index.fill::<(), TermLine>(&[term(Kind::Gives, 0, list(&[3]))], MarkSet::empty(4)?);
    assert!(rt; index.touched(1).next().is_none());
    assert!(rt; index.touched(3).next() == Some(0));
    Ok(())
}

// Lines in the worst order are all brought in, from a set and on from one; a denial is told. Another width is refused, and the index of
// other lines does no harm.
#[test]
fn brought_in(rt: HostRuntime) -> Result<(), Fail> {
    let lines = three_lines();
    let mut index = Index::<TERM_CONDITIONS>::new();
    let mut set = MarkSet::of(4, &[1])?;
    assert!(rt; bring_all(&lines, &index, &(), &mut set));
    assert!(rt; set.same_marks(&MarkSet::of(4, &[1, 2])?)?);
    index.fill::<(), TermLine>(&lines, MarkSet::empty(4)?);
    set = MarkSet::of(4, &[1])?;
    assert!(rt; bring_all(&lines, &index, &(), &mut set));
    assert!(rt; set.same_marks(&MarkSet::of(4, &[1, 2, 3])?)?);
    set = MarkSet::of(4, &[0, 2])?;
    assert!(rt; bring_on(&lines, &index, &(), &MarkSet::of(4, &[0])?, &mut set) == Ok(false));
    assert!(rt; set.same_marks(&MarkSet::of(4, &[0, 2, 3])?)?);
    assert!(rt;
        bring_on(&lines, &index, &(), &MarkSet::empty(5)?, &mut set).is_err_and(|why| why.number()
            == 7)
    );
    Ok(())
}
