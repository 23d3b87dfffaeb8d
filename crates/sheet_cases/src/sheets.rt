// Sheets, call by call.
use crate::made::{refused, sample_book, sample_fares, sheet};
use books::bare::BareBook;
use marks::set::MarkSet;
use readings::answer::Answer;
use readings::method::Method;
use readings::verdict::Verdict;
use sheet::sheet::Sheet;
use std::test::Fail;

// The clipped trip under the sample tariff; refused calls leave it settled, and striking the full count unsettles it.
#[test]
fn clipped_trip(rt: HostRuntime) -> Result<(), Fail> {
    let mut trip = sheet(5, &[0, 3])?;
    assert!(rt; refused(trip.counts(), 12));
    let found = trip.settle(&sample_fares(), &sample_book()?, Method::First)?;
    assert!(rt; found.verdict == Verdict::Clear && found.rounds == 3);
    assert!(rt; refused(trip.enter(0), 10));
    assert!(rt; refused(trip.strike(9), 9));
    assert!(rt; refused(trip.strike(1), 11));
    assert!(rt; refused(trip.ask(5), 9));
    let counts = trip.counts()?;
    assert!(rt; counts.holds == 4 && counts.not == 1 && counts.open == 0 && counts.both == 0);
    assert!(rt; trip.ask(1)? == Answer::Not && trip.ask(4)? == Answer::Holds);
    trip.strike(0)?;
    assert!(rt; refused(trip.ask(4), 12) && refused(trip.ask(5), 9));
    Ok(())
}

// Its one sound reading, tried on the unsettled sheet; the two methods leave sheets that are alike, the plain trip's is another.
#[test]
fn tried_and_compared(rt: HostRuntime) -> Result<(), Fail> {
    let fares = sample_fares();
    let book = sample_book()?;
    let mut first = sheet(5, &[0, 3])?;
    assert!(rt; first.try_set(&fares, &book, &MarkSet::of(5, &[0, 2, 3, 4])?)?);
    assert!(rt; !first.try_set(&fares, &book, &MarkSet::of(5, &[1, 3])?)?);
    assert!(rt; refused(first.try_set(&fares, &book, &MarkSet::of(6, &[])?), 7));
    let mut second = first;
    first.settle(&fares, &book, Method::First)?;
    assert!(rt; refused(first.alike(&second), 12));
    second.settle(&fares, &book, Method::Second)?;
    assert!(rt; first.alike(&second)?);
    let mut plain = sheet(5, &[3])?;
    plain.settle(&fares, &book, Method::First)?;
    assert!(rt; !plain.alike(&second)?);
    assert!(rt; refused(plain.alike(&sheet(6, &[])?), 7));
    Ok(())
}

// The widest sheet, with a fact at its last mark; a book of another width is refused, and so is a wider sheet.
#[test]
fn widest(rt: HostRuntime) -> Result<(), Fail> {
    let mut wide = sheet(512, &[511])?;
    assert!(rt; refused(wide.enter(512), 9));
    assert!(rt; refused(wide.settle(&[], &BareBook::new(511)?, Method::First), 7));
    let found = wide.settle(&[], &BareBook::new(512)?, Method::Second)?;
    assert!(rt; found.rounds == 2);
    let counts = wide.counts()?;
    assert!(rt; counts.holds == 1 && counts.not == 511);
    assert!(rt; wide.ask(511)? == Answer::Holds);
    assert!(rt; refused(Sheet::new(513), 7) && refused(Sheet::new(0), 7));
    Ok(())
}
