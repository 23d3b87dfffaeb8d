// Cases of tariff files, and of the host call.
use crate::bytes::BLANK;
use crate::records::records;
use crate::show::{Hex, Printed, Row, refused, written};
use crate::words;
use host::call::fare_settle;
use lines::fare::FareLine;
use lines::term::TermLine;
use std::alloc::Global;
use tariff_format::fault::FileFault;
use tariff_reader::read::read_tariff;
use tariff_writer::file::{tariff_size, write_tariff};

pub(crate) fn read(heap: Global, fares: &str, terms: &str, hex: &str) -> Printed {
    let bytes = words::bytes(heap, hex)?;
    let mut fares = vec![in heap; FareLine::default(); words::amount(fares)?]?;
    let mut terms = vec![in heap; TermLine::default(); words::amount(terms)?]?;
    match read_tariff(bytes.as_slice(), fares.as_mut_slice(), terms.as_mut_slice()) {
        Err(met) => file_fault(heap, met),
        Ok(counts) => {
            fares.truncate(counts.fares as usize);
            terms.truncate(counts.terms as usize);
            file_back(heap, counts.width, fares.as_slice(), terms.as_slice())
        }
    }
}

fn file_fault(heap: Global, fault: FileFault) -> Printed {
    let number = fault.number();
    let byte = fault.byte();
    match fault.line() {
        None => Ok(format!(in heap; "fault {number} {byte}")?),
        Some(at) => {
            let section = at.section.number();
            let index = at.index;
            Ok(format!(in heap; "fault {number} {byte} {section} {index}")?)
        }
    }
}

// The tariff that was read, and its file written back.
fn file_back(heap: Global, width: u16, fares: &[FareLine], terms: &[TermLine]) -> Printed {
    let size = match tariff_size(width, fares, terms) {
        Ok(size) => size,
        Err(refusal) => return refused(heap, refusal),
    };
    let mut out = vec![in heap; BLANK; size]?;
    if let Err(refusal) = write_tariff(width, fares, terms, out.as_mut_slice()) {
        return refused(heap, refusal);
    }
    let fares = Row(fares, "+");
    let terms = Row(terms, "+");
    let hex = Hex(out.as_slice());
    Ok(format!(in heap; "ok {width} {fares} {terms} {hex}")?)
}

pub(crate) fn write(heap: Global, width: &str, room: &str, fares: &str, terms: &str) -> Printed {
    let width = words::number(width)?;
    let fares = records::<FareLine>(heap, fares)?;
    let terms = records::<TermLine>(heap, terms)?;
    let mut out = vec![in heap; BLANK; words::amount(room)?]?;
    let end = write_tariff(
        width,
        fares.as_slice(),
        terms.as_slice(),
        out.as_mut_slice(),
    );
    written(heap, end, out.as_slice())
}

pub(crate) fn host(heap: Global, file: &str, facts: &str, out: &str) -> Printed {
    let file = words::bytes(heap, file)?;
    let facts = words::bytes(heap, facts)?;
    let mut out = words::bytes(heap, out)?;
    let answer = fare_settle(file.as_slice(), facts.as_slice(), out.as_mut_slice());
    let hex = Hex(out.as_slice());
    Ok(format!(in heap; "{answer} {hex}")?)
}
