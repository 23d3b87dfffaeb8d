// World books.
use crate::made::refused;
use books::book::TermBook;
use marks::set::MarkSet;
use std::test::Fail;
use world_book::book::WorldBook;

// Two worlds of width 3: {0, 1} and {0, 2}.
#[test]
fn two_worlds(rt: HostRuntime) -> Result<(), Fail> {
    let mut book = WorldBook::new(3)?;
    book.fill(&[MarkSet::of(3, &[0, 1])?, MarkSet::of(3, &[0, 2])?])?;
    let mut s = MarkSet::of(3, &[])?;
    assert!(rt; !book.close(&mut s)?);
    assert!(rt; s.same_marks(&MarkSet::of(3, &[0])?)?);
    let mut s = MarkSet::of(3, &[1, 2])?;
    assert!(rt; book.close(&mut s)?);
    assert!(rt; s.same_marks(&MarkSet::of(3, &[0, 1, 2])?)?);
    Ok(())
}

// Without worlds every set clashes and closes to all marks.
#[test]
fn no_world(rt: HostRuntime) -> Result<(), Fail> {
    let book = WorldBook::new(2)?;
    let mut s = MarkSet::of(2, &[])?;
    assert!(rt; book.close(&mut s)?);
    assert!(rt; s.same_marks(&MarkSet::of(2, &[0, 1])?)?);
    Ok(())
}

// 64 worlds are taken and 65 are not; a world of another width is met before that.
#[test]
fn at_most_64(rt: HostRuntime) -> Result<(), Fail> {
    let mut book = WorldBook::new(512)?;
    let full = MarkSet::of(512, &[0, 511])?;
    assert!(rt; book.fill(&[full; 64]).is_ok());
    assert!(rt; refused(book.fill(&[full; 65]), 8));
    assert!(rt; refused(book.fill(&[MarkSet::of(511, &[0])?; 65]), 7));
    let mut s = MarkSet::of(512, &[0])?;
    assert!(rt; !book.close(&mut s)?);
    assert!(rt; s.same_marks(&full)?);
    Ok(())
}
