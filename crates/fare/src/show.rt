// Tariff files: shown, checked and copied.
use crate::failure::{Failure, cannot};
use crate::tariff_file::{Tariff, bytes_of};
use lines::fare::FareLine;
use lines::term::TermLine;
use std::alloc::Global;
use std::{fs, io};
use tariff_reader::read::check_tariff;
use tariff_writer::file::{tariff_size, write_tariff};
use texts::many::Many;
use texts::tariff_text::{FareText, Opening, TermText};

pub(crate) fn show_file(rt: &HostRuntime, name: &str) -> Result<(), Failure> {
    Ok(show_tariff(rt, &Tariff::load(rt, name)?)?)
}

pub(crate) fn show_tariff(rt: &HostRuntime, tariff: &Tariff) -> io::Result<()> {
    let opening = Opening(tariff.counts);
    println!(rt; "{opening}")?;
    show_fares(rt, tariff.fares.as_slice())?;
    show_terms(rt, tariff.terms.as_slice())
}

fn show_fares(rt: &HostRuntime, lines: &[FareLine]) -> io::Result<()> {
    for (i, line) in lines.iter().enumerate() {
        let text = FareText(line);
        println!(rt; "  fare line {i}: {text}")?;
    }
    Ok(())
}

fn show_terms(rt: &HostRuntime, lines: &[TermLine]) -> io::Result<()> {
    for (i, line) in lines.iter().enumerate() {
        let text = TermText(line);
        println!(rt; "  term line {i}: {text}")?;
    }
    Ok(())
}

pub(crate) fn check_file(rt: &HostRuntime, name: &str) -> Result<(), Failure> {
    let bytes = bytes_of(rt, name)?;
    let opening = Opening(check_tariff(&bytes)?);
    let length = Many(bytes.len(), "byte");
    println!(rt; "lawful: {opening}, {length}")?;
    Ok(())
}

// The file of a tariff.
fn file_of(heap: Global, tariff: &Tariff) -> Result<Vec<u8>, Failure> {
    let Tariff {
        counts,
        fares,
        terms,
    } = tariff;
    let size = tariff_size(counts.width, fares, terms)?;
    let mut out = vec![in heap; 0; size]?;
    write_tariff(counts.width, fares, terms, out.as_mut_slice())?;
    Ok(out)
}

// Writes a tariff file anew in memory, and says whether its bytes are the same.
pub(crate) fn rewrite_file(rt: &HostRuntime, from: &str) -> Result<Vec<u8>, Failure> {
    let bytes = bytes_of(rt, from)?;
    let written = file_of(rt.alloc(), &Tariff::read(rt.alloc(), &bytes)?)?;
    let how = if written == bytes {
        "the same as"
    } else {
        "other than"
    };
    let length = Many(written.len(), "byte");
    println!(rt; "{length}, {how} those read")?;
    Ok(written)
}

pub(crate) fn copy_file(rt: &HostRuntime, from: &str, to: &str) -> Result<(), Failure> {
    let written = rewrite_file(rt, from)?;
    fs::write(rt, to, written.as_slice()).map_err(|error| cannot("write", to, error))?;
    println!(rt; "written to {to}")?;
    Ok(())
}
