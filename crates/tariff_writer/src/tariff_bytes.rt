// A tariff in a file: its three numbers, then its lines.
ghost use Rattle.std.specs.Prelude.{◌≡◌, ◌≤◌, length};
ghost use Rattle.tariff_format.specs.Encoding.{file_bytes};
ghost use Rattle.tariff_format.specs.Laws.{Proper};
ghost use Rattle.tariff_format.specs.Tariffs.{tariff_of};
ghost use Rattle.tariff_writer.specs.Calls.{Checks, Sized, Filed};
ghost use Rattle.tariff_writer.specs.Lent.{the_tariff};

use crate::encode::Encode;
use crate::lent::Tariff;
use lines::check::check_records;
use lines::fare::{FareLine, MOST_FARES};
use lines::term::{MOST_TERMS, TermLine};
use marks::refusal::Refusal;
use marks::width::check_width;

// How many lines there are, as the file counts them.
fn count_of<L>(lines: &[L]) -> u16
    requires { length lines.now ≤ 1024 }
    ensures { result ≡ length lines.now }
{
    lines.len() as u16
}

impl<'a> Tariff<'a> {
    // A lawful tariff. Refused where the width or a record breaks a limit.
    pub(crate) fn new(
        width: u16,
        fares: &'a [FareLine],
        terms: &'a [TermLine],
    ) -> Result<Tariff<'a>, Refusal>
        ensures { Checks (tariff_of width fares.now terms.now) result (λ t. the_tariff t ≡ tariff_of width fares.now terms.now) }
    {
        check_width(width)?;
        check_records(fares, MOST_FARES, width)?;
        check_records(terms, MOST_TERMS, width)?;
        Ok(Tariff {
            width,
            fares,
            terms,
        })
    }

    // What its file holds, one part behind the other.
    fn parts(&self) -> (u16, (u16, (u16, (&'a [FareLine], &'a [TermLine]))))
        ensures width { result.0 ≡ self.now.width }
        ensures fare_count { result.1.0 ≡ length self.now.fares.now }
        ensures term_count { result.1.1.0 ≡ length self.now.terms.now }
        ensures fares { result.1.1.1.0.now ≡ self.now.fares.now }
        ensures terms { result.1.1.1.1.now ≡ self.now.terms.now }
    {
        let lines = (self.fares, self.terms);
        let term_count = count_of(self.terms);
        (self.width, (count_of(self.fares), (term_count, lines)))
    }

    // The length of its file.
    pub(crate) fn file_size(&self) -> usize
        ensures { Sized (the_tariff self.now) result }
    {
        self.size()
    }

    // Writes its file where it has room, and answers its length.
    pub(crate) fn put_file(&self, out: &mut [u8]) -> usize
        requires { length (file_bytes (the_tariff self.now)) ≤ length out.old }
        ensures { Filed (the_tariff self.now) out.old out.new result }
    {
        self.put(out, 0)
    }
}

impl Encode for Tariff<'_> {
    ghost bytes = { λ t. file_bytes (the_tariff t) };

    ghost whole = { λ t. Proper (the_tariff t) };

    fn size(&self) -> usize {
        self.parts().size()
    }

    fn put(&self, out: &mut [u8], place: usize) -> usize {
        self.parts().put(out, place)
    }
}
