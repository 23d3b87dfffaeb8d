// The two methods of settling a sheet.
ghost use Rattle.std.specs.Prelude.{◌≡◌};
ghost use Rattle.readings.specs.Says.{the_method, Numbers};

#[derive(Clone, Copy, Debug, PartialEq, Eq)]
pub enum Method {
    // the alternating fixpoint
    First = 1,
    // the iterated fixpoint
    Second = 2,
}

impl Method {
    pub fn number(self) -> u8
        ensures { result ≡ (the_method self).number }
    {
        self as u8
    }
}

// A number that no method has.
#[derive(Clone, Copy, Debug, PartialEq, Eq)]
pub struct UnknownMethod(pub u16);

impl TryFrom<u16> for Method {
    type Error = UnknownMethod;

    ghost try_from_gives = { Numbers };

    fn try_from(number: u16) -> Result<Self, UnknownMethod> {
        match number {
            1 => Ok(Method::First),
            2 => Ok(Method::Second),
            _ => Err(UnknownMethod(number)),
        }
    }
}
