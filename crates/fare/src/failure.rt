// Why a command did not do what it was asked: what the module refused, or what else went wrong.
use anyhow::anyhow;
use hex::FromHexError;
use marks::refusal::Refusal;
use std::alloc::{AllocError, AllocFailed};
use std::{fmt, io};
use tariff_format::fault::FileFault;
use texts::refused::{FaultText, RefusalText};

#[derive(Debug, Drop)]
pub(crate) enum Failure {
    // the bytes are no lawful tariff file
    Fault(FileFault),
    // the module refused a call
    Refusal(Refusal),
    // the command's words, its files or its memory
    Other(anyhow::Error),
}

impl fmt::Display for Failure {
    fn fmt<W: fmt::Write>(&self, f: &mut fmt::Formatter<W>) -> fmt::Result {
        match self {
            Failure::Fault(fault) => write!(f, "{}", FaultText(*fault)),
            Failure::Refusal(refusal) => write!(f, "{}", RefusalText(*refusal)),
            Failure::Other(error) => write!(f, "{error}"),
        }
    }
}

impl From<FileFault> for Failure {
    fn from(fault: FileFault) -> Failure {
        Failure::Fault(fault)
    }
}

impl From<Refusal> for Failure {
    fn from(refusal: Refusal) -> Failure {
        Failure::Refusal(refusal)
    }
}

impl From<io::Error> for Failure {
    fn from(error: io::Error) -> Failure {
        Failure::Other(error.into())
    }
}

impl From<AllocError> for Failure {
    fn from(error: AllocError) -> Failure {
        Failure::Other(error.into())
    }
}

impl<T: Drop> From<AllocFailed<T>> for Failure {
    fn from(error: AllocFailed<T>) -> Failure {
        Failure::Other(error.into())
    }
}

impl From<FromHexError> for Failure {
    fn from(error: FromHexError) -> Failure {
        match error {
            FromHexError::OutOfMemory => AllocError.into(),
            _ => "a byte is two hexadecimal digits".into(),
        }
    }
}

impl From<anyhow::Error> for Failure {
    fn from(error: anyhow::Error) -> Failure {
        Failure::Other(error)
    }
}

impl From<&str> for Failure {
    fn from(text: &str) -> Failure {
        Failure::Other(anyhow::Error::msg(text))
    }
}

// A file that cannot be read or written.
pub(crate) fn cannot(what: &str, name: &str, error: io::Error) -> Failure {
    anyhow!("cannot {what} {name}: {error}").into()
}
