// Barred books, on a kind from outside and on one another.
use crate::made::refused;
use books::barred::BarredBook;
use books::book::TermBook;
use example_book::AlwaysBook;
use lines::bar::Bar;
use marks::set::MarkSet;
use std::test::Fail;

// 0 always holds; 0 with 1 is barred, and above that 2 with 3.
#[test]
fn bars_on_bars(rt: HostRuntime) -> Result<(), Fail> {
    let mut below = BarredBook::new(AlwaysBook {
        marks: MarkSet::of(4, &[0])?,
    });
    below.fill(&[Bar { low: 0, high: 1 }])?;
    let mut book = BarredBook::new(below);
    book.fill(&[Bar { low: 2, high: 3 }])?;
    let mut s = MarkSet::of(4, &[2])?;
    assert!(rt; !book.close(&mut s)?);
    assert!(rt; s.same_marks(&MarkSet::of(4, &[0, 2])?)?);
    let mut s = MarkSet::of(4, &[1])?;
    assert!(rt; book.close(&mut s)?);
    assert!(rt; s.count() == 4);
    let mut s = MarkSet::of(4, &[2, 3])?;
    assert!(rt; book.close(&mut s)?);
    assert!(rt; s.count() == 4);
    Ok(())
}

// 32 bars are taken and 33 are not; marks of a bar ascend and lie below the width.
#[test]
fn at_most_32(rt: HostRuntime) -> Result<(), Fail> {
    let mut book = BarredBook::new(AlwaysBook {
        marks: MarkSet::of(4, &[])?,
    });
    assert!(rt; book.fill(&[Bar { low: 0, high: 3 }; 32]).is_ok());
    assert!(rt; refused(book.fill(&[Bar { low: 0, high: 3 }; 33]), 8));
    assert!(rt; refused(book.fill(&[Bar { low: 3, high: 4 }]), 8));
    assert!(rt; refused(book.fill(&[Bar { low: 1, high: 1 }]), 8));
    assert!(rt; refused(book.fill(&[Bar { low: 1, high: 0 }]), 8));
    let mut s = MarkSet::of(4, &[0, 3])?;
    assert!(rt; book.close(&mut s)?);
    Ok(())
}
