// Closing on from a second set, for each kind of book.
use crate::made::{denies, gives, list, refused};
use books::bare::BareBook;
use books::barred::BarredBook;
use books::book::TermBook;
use example_book::AlwaysBook;
use line_book::book::LineBook;
use lines::bar::Bar;
use marks::refusal::Refusal;
use marks::set::MarkSet;
use std::test::Fail;
use world_book::book::WorldBook;

// Whether these marks become their closure and meet this clash, both closed on from the clean ones and closed.
fn closes_alike<B: TermBook>(
    book: &B,
    marks: &[u16],
    clean: &[u16],
    closure: &[u16],
    clash: bool,
) -> Result<bool, Refusal> {
    let clean = MarkSet::of(book.width(), clean)?;
    let closure = MarkSet::of(book.width(), closure)?;
    let mut on = MarkSet::of(book.width(), marks)?;
    let mut anew = on;
    let told_on = book.close_on(&mut on, &clean)?;
    let told_anew = book.close(&mut anew)?;
    let alike = on.same_marks(&closure)? && anew.same_marks(&closure)?;
    Ok(alike && told_on == clash && told_anew == clash)
}

// Whether these marks, at which the book does not clash, stay within what they become closed on from the other ones, that lies
// within their closure, and no clash is told.
fn stays_between<B: TermBook>(
    book: &B,
    marks: &[u16],
    other: &[u16],
    closure: &[u16],
) -> Result<bool, Refusal> {
    let other = MarkSet::of(book.width(), other)?;
    let closure = MarkSet::of(book.width(), closure)?;
    let marks = MarkSet::of(book.width(), marks)?;
    let mut on = marks;
    let told = book.close_on(&mut on, &other)?;
    Ok(!told && marks.is_subset(&on)? && on.is_subset(&closure)?)
}

// Whether each of the two sets is refused where it has the other width, and both then stay.
fn tests_widths<B: TermBook>(book: &B, other: u16) -> Result<bool, Refusal> {
    let own = MarkSet::of(book.width(), &[0])?;
    let other = MarkSet::of(other, &[0])?;
    let mut first = other;
    let mut second = own;
    let told = refused(book.close_on(&mut first, &own), 7)
        && refused(book.close_on(&mut second, &other), 7);
    Ok(told && first.same_marks(&other)? && second.same_marks(&own)?)
}

#[test]
fn bare(rt: HostRuntime) -> Result<(), Fail> {
    let book = BareBook::new(3)?;
    assert!(rt; closes_alike(&book, &[0, 1], &[0], &[0, 1], false)?);
    assert!(rt; stays_between(&book, &[0, 1], &[2], &[0, 1])?);
    assert!(rt; tests_widths(&book, 4)?);
    Ok(())
}

// Always gives 0; 0 with 1 gives 2; 2 with 3 is denied. {0} is clean; {1} is not closed, all marks clash, and {0, 4} lies outside.
#[test]
fn lines(rt: HostRuntime) -> Result<(), Fail> {
    let mut book = LineBook::new(5)?;
    book.fill(&[
        denies(list(&[2, 3])),
        gives(list(&[0, 1]), 2),
        gives(list(&[]), 0),
    ])?;
    assert!(rt; closes_alike(&book, &[0, 1], &[0], &[0, 1, 2], false)?);
    assert!(rt; closes_alike(&book, &[0, 1, 3], &[0], &[0, 1, 2, 3, 4], true)?);
    assert!(rt; stays_between(&book, &[1], &[1], &[0, 1, 2])?);
    assert!(rt; stays_between(&book, &[1], &[0, 1, 2, 3, 4], &[0, 1, 2])?);
    assert!(rt; stays_between(&book, &[1], &[0, 4], &[0, 1, 2])?);
    assert!(rt; tests_widths(&book, 4)?);
    Ok(())
}

// The worlds are {0, 1} and {0, 2}. {0} is clean; {} is not closed, all marks clash, and {0, 2} lies outside.
#[test]
fn worlds(rt: HostRuntime) -> Result<(), Fail> {
    let mut book = WorldBook::new(3)?;
    book.fill(&[MarkSet::of(3, &[0, 1])?, MarkSet::of(3, &[0, 2])?])?;
    assert!(rt; closes_alike(&book, &[0, 1], &[0], &[0, 1], false)?);
    assert!(rt; closes_alike(&book, &[0, 1, 2], &[0], &[0, 1, 2], true)?);
    assert!(rt; stays_between(&book, &[1], &[], &[0, 1])?);
    assert!(rt; stays_between(&book, &[1], &[0, 1, 2], &[0, 1])?);
    assert!(rt; stays_between(&book, &[1], &[0, 2], &[0, 1])?);
    assert!(rt; tests_widths(&book, 2)?);
    Ok(())
}

// 0 always holds; 0 with 1 is barred, and above that 2 with 3. {0} is clean; {2} is not closed, {2, 3} clashes, and {0, 3} lies
// outside.
#[test]
fn bars(rt: HostRuntime) -> Result<(), Fail> {
    let mut below = BarredBook::new(AlwaysBook {
        marks: MarkSet::of(4, &[0])?,
    });
    below.fill(&[Bar { low: 0, high: 1 }])?;
    let mut book = BarredBook::new(below);
    book.fill(&[Bar { low: 2, high: 3 }])?;
    assert!(rt; closes_alike(&book, &[0, 2], &[0], &[0, 2], false)?);
    assert!(rt; closes_alike(&book, &[0, 1], &[0], &[0, 1, 2, 3], true)?);
    assert!(rt; closes_alike(&book, &[0, 2, 3], &[0], &[0, 1, 2, 3], true)?);
    assert!(rt; stays_between(&book, &[2], &[2], &[0, 2])?);
    assert!(rt; stays_between(&book, &[2], &[2, 3], &[0, 2])?);
    assert!(rt; stays_between(&book, &[2], &[0, 3], &[0, 2])?);
    assert!(rt; tests_widths(&book, 5)?);
    Ok(())
}
