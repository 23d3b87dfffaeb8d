// The records of a case: lines, bars and worlds, and lists of them.
use crate::words::{amount, mark_list, number, set};
use anyhow::Context;
use lines::bar::Bar;
use lines::fare::FareLine;
use lines::term::{Kind, TermLine};
use marks::set::MarkSet;
use std::alloc::Global;

// What is written as one word, or as part of one.
pub(crate) trait Written: Copy {
    fn written(text: &str) -> anyhow::Result<Self>;
}

impl Written for FareLine {
    fn written(text: &str) -> anyhow::Result<FareLine> {
        let wants = "a fare line has a head and two lists";
        let (head, lists) = text.split_once('/').context(wants)?;
        let (conditions, unless) = lists.split_once('/').context(wants)?;
        Ok(FareLine {
            head: number(head)?,
            conditions: mark_list(conditions)?,
            unless: mark_list(unless)?,
        })
    }
}

// The head's place of a denial holds what no head can be.
impl Written for TermLine {
    fn written(text: &str) -> anyhow::Result<TermLine> {
        let parts = text.split_once('/');
        let (head, conditions) = parts.context("a term line has a head and a list")?;
        let (kind, head) = match head {
            "!" => (Kind::Denies, u16::MAX),
            mark => (Kind::Gives, number(mark)?),
        };
        Ok(TermLine {
            kind,
            head,
            conditions: mark_list(conditions)?,
        })
    }
}

impl Written for Bar {
    fn written(text: &str) -> anyhow::Result<Bar> {
        let (low, high) = text.split_once('-').context("a bar is two marks")?;
        Ok(Bar {
            low: number(low)?,
            high: number(high)?,
        })
    }
}

impl Written for MarkSet {
    fn written(text: &str) -> anyhow::Result<MarkSet> {
        set(text)
    }
}

// Records with `+` between them, each as often as it says; `-` for none.
pub(crate) fn records<T: Written>(heap: Global, text: &str) -> anyhow::Result<Vec<T>> {
    let mut records = Vec::new(heap);
    if text == "-" {
        return Ok(records);
    }
    for word in text.split('+') {
        let (record, times) = word.split_once('*').unwrap_or((word, "1"));
        let record = T::written(record)?;
        let count = records.len().saturating_add(amount(times)?);
        records.resize(count, record)?;
    }
    Ok(records)
}
