// The book of a case, whatever its kind: made, filled and put to use.
use crate::jobs::Job;
use crate::records::records;
use crate::show::Printed;
use crate::words::number;
use anyhow::anyhow;
use books::bare::BareBook;
use books::barred::BarredBook;
use books::book::TermBook;
use line_book::book::LineBook;
use lines::bar::Bar;
use lines::term::TermLine;
use marks::refusal::Refusal;
use marks::set::MarkSet;
use std::alloc::Global;
use world_book::book::WorldBook;

// The bars around a book, layer by layer.
#[derive(Drop)]
enum Layers {
    None,
    One(Vec<Bar>),
    Two { inner: Vec<Bar>, outer: Vec<Bar> },
}

// Does the job with the book that the words describe.
pub(crate) fn on_book(heap: Global, words: &[&str], job: &Job) -> Printed {
    match words {
        ["barred", outer, "barred", inner, ground @ ..] => {
            let inner = records::<Bar>(heap, inner)?;
            let outer = records::<Bar>(heap, outer)?;
            on_ground(heap, ground, Layers::Two { inner, outer }, job)
        }
        ["barred", bars, ground @ ..] => {
            let bars = records::<Bar>(heap, bars)?;
            on_ground(heap, ground, Layers::One(bars), job)
        }
        _ => on_ground(heap, words, Layers::None, job),
    }
}

fn on_ground(heap: Global, words: &[&str], layers: Layers, job: &Job) -> Printed {
    match words {
        ["bare", width] => {
            let book = BareBook::new(number(width)?);
            on_layers(heap, book, &layers, job)
        }
        ["line", width, terms] => {
            let terms = records::<TermLine>(heap, terms)?;
            on_layers(
                heap,
                line_book(number(width)?, terms.as_slice()),
                &layers,
                job,
            )
        }
        ["world", width, worlds] => {
            let worlds = records::<MarkSet>(heap, worlds)?;
            on_layers(
                heap,
                world_book(number(width)?, worlds.as_slice()),
                &layers,
                job,
            )
        }
        _ => Err(anyhow!("no such book")),
    }
}

fn on_layers<B: TermBook + Drop>(
    heap: Global,
    ground: Result<B, Refusal>,
    layers: &Layers,
    job: &Job,
) -> Printed {
    match layers {
        Layers::None => on_made(heap, ground, job),
        Layers::One(bars) => on_made(heap, barred(ground, bars.as_slice()), job),
        Layers::Two { inner, outer } => {
            let book = barred(ground, inner.as_slice());
            on_made(heap, barred(book, outer.as_slice()), job)
        }
    }
}

fn on_made<B: TermBook + Drop>(heap: Global, book: Result<B, Refusal>, job: &Job) -> Printed {
    match book {
        Ok(book) => job.run(heap, &book),
        Err(refusal) => {
            let number = refusal.number();
            Ok(format!(in heap; "unmade {number}")?)
        }
    }
}

fn line_book(width: u16, terms: &[TermLine]) -> Result<LineBook, Refusal> {
    let mut book = LineBook::new(width)?;
    book.fill(terms)?;
    Ok(book)
}

fn world_book(width: u16, worlds: &[MarkSet]) -> Result<WorldBook, Refusal> {
    let mut book = WorldBook::new(width)?;
    book.fill(worlds)?;
    Ok(book)
}

fn barred<B: TermBook + Drop>(
    below: Result<B, Refusal>,
    bars: &[Bar],
) -> Result<BarredBook<B>, Refusal> {
    let mut book = BarredBook::new(below?);
    book.fill(bars)?;
    Ok(book)
}
