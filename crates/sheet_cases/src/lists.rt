// Lists of calls, with a kind of book from outside.
use crate::made::{done, fare, refused, settled, told};
use example_book::AlwaysBook;
use marks::refusal::Refusal;
use marks::set::MarkSet;
use readings::answer::Answer;
use readings::method::Method;
use runs::list::perform_all;
use sheet::call::Call;
use sheet::reply::Reply;
use std::test::Fail;

// 0 always holds, and "2 if 0 unless 1". What is refused does not end the list and changes nothing.
#[test]
fn refused_among_others(rt: HostRuntime) -> Result<(), Fail> {
    let book = AlwaysBook {
        marks: MarkSet::of(4, &[0])?,
    };
    let calls = [
        Call::Ask(2),
        Call::Settle(Method::First),
        Call::Strike(1),
        Call::Ask(2),
        Call::Enter(1),
        Call::Enter(1),
        Call::Ask(2),
        Call::Settle(Method::Second),
        Call::Ask(2),
        Call::Enter(4),
        Call::Ask(1),
    ];
    let mut replies = [Err(Refusal::BytesEnd); 12];
    perform_all(4, &[fare(2, 0, 1)], &book, &calls, &mut replies)?;
    assert!(rt; refused(replies[0], 12));
    assert!(rt; settled(replies[1], 0, 3));
    assert!(rt; refused(replies[2], 11));
    assert!(rt; told(replies[3], Answer::Holds));
    assert!(rt; done(replies[4]));
    assert!(rt; refused(replies[5], 10));
    assert!(rt; refused(replies[6], 12));
    assert!(rt; settled(replies[7], 0, 2));
    assert!(rt; told(replies[8], Answer::Not));
    assert!(rt; refused(replies[9], 9));
    assert!(rt; told(replies[10], Answer::Holds));
    assert!(rt; refused(replies[11], 1));
    Ok(())
}

// As many records as calls are enough; one fewer, or a width that no sheet has, and none is written.
#[test]
fn records_and_widths(rt: HostRuntime) -> Result<(), Fail> {
    let book = AlwaysBook {
        marks: MarkSet::of(512, &[])?,
    };
    let calls = [Call::Enter(511), Call::Enter(512)];
    let mut replies = [Err(Refusal::BytesEnd); 2];
    assert!(rt; refused(perform_all(0, &[], &book, &calls, &mut replies), 7));
    assert!(rt; refused(perform_all(513, &[], &book, &calls, &mut replies), 7));
    assert!(rt; refused(perform_all(512, &[], &book, &calls, &mut replies[..1]), 13));
    assert!(rt; refused(replies[0], 1) && refused(replies[1], 1));
    perform_all(512, &[], &book, &calls, &mut replies)?;
    assert!(rt; done(replies[0]) && refused(replies[1], 9));
    Ok(())
}
