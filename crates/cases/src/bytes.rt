// Cases of single numbers, facts strings and sets.
use crate::show::{Hex, Marks, Printed, fault, refused, written};
use crate::words;
use marks::set::MarkSet;
use std::alloc::Global;
use tariff::cursor::Reader;
use tariff::facts::{read_facts, write_facts};
use tariff::writer::write_number;
use texts::facts_string::MOST_BYTES;

// What output holds before it is written.
pub(crate) const BLANK: u8 = 0xaa;

pub(crate) fn number(heap: Global, low: &str, high: &str, hex: &str) -> Printed {
    let bytes = words::bytes(heap, hex)?;
    let mut reader = Reader::new(bytes.as_slice());
    match reader.number(words::number(low)?, words::number(high)?) {
        Err(met) => fault(heap, met),
        Ok(value) => {
            let size = reader.place();
            Ok(format!(in heap; "ok {value} {size}")?)
        }
    }
}

pub(crate) fn spell(heap: Global, room: &str, place: &str, value: &str) -> Printed {
    let mut out = vec![in heap; BLANK; words::amount(room)?]?;
    let end = write_number(
        out.as_mut_slice(),
        words::amount(place)?,
        words::number(value)?,
    );
    written(heap, end, out.as_slice())
}

pub(crate) fn facts(heap: Global, width: &str, hex: &str) -> Printed {
    let bytes = words::bytes(heap, hex)?;
    let mut facts = match MarkSet::empty(words::number(width)?) {
        Ok(set) => set,
        Err(refusal) => return refused(heap, refusal),
    };
    match read_facts(bytes.as_slice(), &mut facts) {
        Err(met) => fault(heap, met),
        Ok(()) => facts_back(heap, &facts),
    }
}

// The marks that were read, and the string written back.
fn facts_back(heap: Global, facts: &MarkSet) -> Printed {
    let mut out = [0; MOST_BYTES];
    match write_facts(facts, &mut out) {
        Err(refusal) => refused(heap, refusal),
        Ok(length) => {
            let marks = Marks(facts);
            let count = facts.count();
            let hex = Hex(&out[0..length]);
            Ok(format!(in heap; "ok {marks} {count} {hex}")?)
        }
    }
}

pub(crate) fn string(heap: Global, room: &str, set: &str) -> Printed {
    let set = words::set(set)?;
    let mut out = vec![in heap; BLANK; words::amount(room)?]?;
    let length = write_facts(&set, out.as_mut_slice());
    written(heap, length, out.as_slice())
}

pub(crate) fn next(heap: Global, from: &str, set: &str) -> Printed {
    let set = words::set(set)?;
    let count = set.count();
    match set.next(words::number(from)?) {
        None => Ok(format!(in heap; "{count} none")?),
        Some(mark) => Ok(format!(in heap; "{count} {mark}")?),
    }
}
