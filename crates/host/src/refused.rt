// Why a host call is refused.
ghost use Rattle.std.specs.Prelude.{◌≡◌};
ghost use Rattle.host.specs.declared.refused.Refused.TheVariants.{File};
ghost use Rattle.host.specs.Refused.{refused_number};

use marks::refusal::Refusal;
use tariff::fault::NumberFault;
use tariff_format::fault::FileFault;

#[derive(Clone, Copy)]
pub(crate) enum Refused {
    File(FileFault),
    Facts(NumberFault),
    Output,
}

impl Refused {
    // The number of the refusal.
    pub(crate) fn number(self) -> u8
        ensures { result ≡ refused_number self }
    {
        match self {
            Refused::File(fault) => fault.number(),
            Refused::Facts(fault) => fault.refusal.number(),
            Refused::Output => Refusal::OutputShort.number(),
        }
    }
}

impl From<FileFault> for Refused {
    ghost from_gives = { λ f r. r ≡ File f };

    fn from(fault: FileFault) -> Refused {
        Refused::File(fault)
    }
}
