// The words of a case: numbers, bytes, sets and lists of marks.
use anyhow::{Context, anyhow};
use hex::FromHexError;
use lines::list::MarkList;
use marks::set::MarkSet;
use readings::method::Method;
use std::alloc::{AllocError, Global};

// A mark, a width, a value. There are many, so nothing as large as an error is moved for one that is right.
pub(crate) fn number(text: &str) -> anyhow::Result<u16> {
    let Ok(n) = text.parse::<u16>() else {
        return Err(anyhow!("no number up to 65,535"));
    };
    Ok(n)
}

// How many there are of something.
pub(crate) fn amount(text: &str) -> anyhow::Result<usize> {
    text.parse::<usize>().context("no number")
}

// Written as one of two words, not as any number: 01 is no method.
pub(crate) fn method(text: &str) -> anyhow::Result<Method> {
    match text {
        "1" => Ok(Method::First),
        "2" => Ok(Method::Second),
        _ => Err(anyhow!("a method is 1 or 2")),
    }
}

// The bytes that HEX spells, in lower case. All its pairs are tested before its length is.
pub(crate) fn bytes(heap: Global, hex: &str) -> anyhow::Result<Vec<u8>> {
    let digits = if hex == "-" { "" } else { hex };
    let (pairs, _) = digits.as_bytes().as_chunks::<2>();
    if !pairs
        .as_flattened()
        .iter()
        .all(|b| matches!(*b, b'0'..=b'9' | b'a'..=b'f'))
    {
        return Err(anyhow!("no hexadecimal digit"));
    }
    hex::decode(heap, digits).map_err(|error| match error {
        FromHexError::OutOfMemory => AllocError.into(),
        _ => anyhow!("a byte is two hexadecimal digits"),
    })
}

// A set: its width, and its marks in ascending order.
pub(crate) fn set(text: &str) -> anyhow::Result<MarkSet> {
    let (width, marks) = text
        .split_once(':')
        .context("a set has a width and a colon")?;
    let empty = MarkSet::empty(number(width)?).context("a set has a width from 1 to 512")?;
    with_marks(empty, marks)
}

fn with_marks(mut set: MarkSet, marks: &str) -> anyhow::Result<MarkSet> {
    if marks.is_empty() {
        return Ok(set);
    }
    for word in marks.split(',') {
        let mark = number(word)?;
        if set.next(mark).is_some() || set.insert(mark).is_err() {
            return Err(anyhow!("the marks of a set ascend, below its width"));
        }
    }
    Ok(set)
}

// A list in a record. It counts every mark that is written, and has places for the first eight.
pub(crate) fn mark_list(marks: &str) -> anyhow::Result<MarkList> {
    let mut list = MarkList::default();
    if marks.is_empty() {
        return Ok(list);
    }
    for word in marks.split(',') {
        add_mark(&mut list, number(word)?)?;
    }
    Ok(list)
}

fn add_mark(list: &mut MarkList, mark: u16) -> anyhow::Result<()> {
    let count = list.count;
    if let Some(place) = list.marks.get_mut(count as usize) {
        *place = mark;
    }
    let Some(more) = count.checked_add(1) else {
        return Err(anyhow!("a list has at most 255 marks"));
    };
    list.count = more;
    Ok(())
}
