// The facts, settled by the tariff.
ghost use Rattle.std.specs.Prelude.{◌≡◌};
ghost use Rattle.tariff_format.specs.Encoding.{LawfulTariff};
ghost use Rattle.host.specs.Steps.{Found};

use line_book::book::LineBook;
use marks::set::MarkSet;
use readings::method::Method;
use settling::settle::{Judged, settle};
use tariff_reader::tables::Tables;

// The least reading of the facts and the verdict on it, by the tariff in the tables and the first method. The book is filled where it
// was made: a value of 20 KiB would be copied where it is moved.
pub(crate) fn settle_facts(tables: &Tables, facts: &MarkSet) -> Judged
    requires lawful { LawfulTariff tables.now }
    requires width { facts.now.width ≡ tables.now.width }
    ensures { Found tables.now facts.now result }
{
    let mut made = LineBook::new(tables.width());
    let Ok(book) = &mut made else { unreachable() };
    book.fill(tables.terms()).unwrap();
    settle(tables.fares(), book, facts, Method::First).unwrap()
}
