// Line books.
use crate::made::{denies, gives, list, refused};
use books::book::TermBook;
use line_book::book::LineBook;
use lines::list::MarkList;
use marks::set::MarkSet;
use std::test::Fail;

// Lines against their order: always gives 0; 0 with 1 gives 2; 2 with 3 is denied.
#[test]
fn grows(rt: HostRuntime) -> Result<(), Fail> {
    let mut book = LineBook::new(5)?;
    book.fill(&[
        denies(list(&[2, 3])),
        gives(list(&[0, 1]), 2),
        gives(list(&[]), 0),
    ])?;
    let mut s = MarkSet::of(5, &[1])?;
    assert!(rt; !book.close(&mut s)?);
    assert!(rt; s.same_marks(&MarkSet::of(5, &[0, 1, 2])?)?);
    let mut s = MarkSet::of(5, &[1, 3])?;
    assert!(rt; book.close(&mut s)?);
    assert!(rt; s.count() == 5);
    Ok(())
}

// Without lines nothing is added; a set of another width is refused.
#[test]
fn no_line(rt: HostRuntime) -> Result<(), Fail> {
    let book = LineBook::new(5)?;
    let mut s = MarkSet::of(5, &[1, 3])?;
    assert!(rt; !book.close(&mut s)?);
    assert!(rt; s.count() == 2);
    assert!(rt; book.close(&mut MarkSet::of(6, &[1])?).is_err());
    Ok(())
}

// 512 lines are taken and 513 are not; a refused fill leaves the lines as they were.
#[test]
fn at_most_512(rt: HostRuntime) -> Result<(), Fail> {
    let mut book = LineBook::new(512)?;
    assert!(rt; book.fill(&[gives(list(&[]), 511); 512]).is_ok());
    assert!(rt; refused(book.fill(&[gives(list(&[]), 0); 513]), 8));
    let mut s = MarkSet::of(512, &[])?;
    assert!(rt; !book.close(&mut s)?);
    assert!(rt; s.same_marks(&MarkSet::of(512, &[511])?)?);
    Ok(())
}

// What makes a line unlawful, and what does not.
#[test]
fn lawful(rt: HostRuntime) -> Result<(), Fail> {
    let mut book = LineBook::new(9)?;
    let eight = MarkList {
        count: 8,
        marks: [0, 1, 2, 3, 4, 5, 6, 8],
    };
    let nine = MarkList {
        count: 9,
        marks: [0, 1, 2, 3, 4, 5, 6, 8],
    };
    assert!(rt; book.fill(&[gives(eight, 8)]).is_ok());
    assert!(rt; refused(book.fill(&[gives(nine, 8)]), 8));
    assert!(rt; refused(book.fill(&[gives(list(&[0, 1]), 9)]), 8));
    assert!(rt; refused(book.fill(&[denies(list(&[1, 1]))]), 8));
    assert!(rt; refused(book.fill(&[denies(list(&[1, 0]))]), 8));
    assert!(rt; refused(book.fill(&[denies(list(&[0, 9]))]), 8));
    assert!(rt; book.fill(&[denies(list(&[0, 8]))]).is_ok());
    Ok(())
}
