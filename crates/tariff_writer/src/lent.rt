// A tariff where the caller has it.
ghost use Rattle.tariff_format.specs.Encoding.{LawfulTariff};
ghost use Rattle.tariff_format.specs.Tariffs.{tariff_of};
ghost use Rattle.tariff_writer.specs.Props.{lawful-prop};

use lines::fare::FareLine;
use lines::term::TermLine;

// A lawful tariff: its width and the caller's lines.
#[derive(Drop)]
pub(crate) struct Tariff<'a> {
    pub(crate) width: u16,
    pub(crate) fares: &'a [FareLine],
    pub(crate) terms: &'a [TermLine],
    ghost lawful: { LawfulTariff (tariff_of width fares.now terms.now) } by { lawful-prop (tariff_of width fares.now terms.now) },
}
