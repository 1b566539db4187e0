//! Why a text says no devices.

ghost use Rattle.std.specs.Prelude.{◌≡◌, Some};
ghost use Rattle.tac_devices.specs.FaultText.{refusal_text, fault_text};
ghost use Rattle.tac_devices.specs.declared.fault.DevicesFault.TheVariants.{Memory};
ghost use Rattle.tac_devices.specs.declared.fault.LineFault.TheVariants as lines;

use std::alloc::{AllocError, AllocFailed};
use std::error::Error;
use std::fmt;

/// What is wrong with a line, or with the device that begins there.
#[derive(Clone, Copy, Debug, PartialEq, Eq)]
pub enum DevicesRefusal {
    /// The line isn't a line of a devices' file.
    BadLine,
    /// The field that should be a name isn't one.
    BadName,
    /// No device begins before the line.
    NoDevice,
    /// The field isn't an address or a prefix, bits are set after the prefix, or it is an IPv4
    /// address that is written as IPv6.
    BadPrefix,
    /// The key, or the old one, is empty or has more than 128 symbols, the common name is empty or
    /// has more than 64, or the number isn't one of 1 to 10,000.
    BadValue,
    /// The device is there already, or has this setting already, or this key as its other one; or
    /// the prefix is there already, in whichever device.
    Repeated,
    /// There are more than 4,096 devices, or more than 16,384 prefixes.
    Limit,
    /// The device has neither a key nor `tls`, or it has an old key and no key.
    NoKey,
    /// The device has no address.
    NoAddress,
}

impl DevicesRefusal {
    // The kind's number and name.
    fn name(&self) -> &'static str
        ensures { result.now ≡ refusal_text self.now }
    {
        match self {
            DevicesRefusal::BadLine => "1 BadLine",
            DevicesRefusal::BadName => "2 BadName",
            DevicesRefusal::NoDevice => "3 NoDevice",
            DevicesRefusal::BadPrefix => "4 BadPrefix",
            DevicesRefusal::BadValue => "5 BadValue",
            DevicesRefusal::Repeated => "6 Repeated",
            DevicesRefusal::Limit => "7 Limit",
            DevicesRefusal::NoKey => "8 NoKey",
            DevicesRefusal::NoAddress => "9 NoAddress",
        }
    }
}

impl fmt::Display for DevicesRefusal {
    ghost output = { λ refusal. Some (refusal_text refusal) };

    fn fmt<W: fmt::Write>(&self, f: &mut fmt::Formatter<W>) -> fmt::Result {
        f.write_str(self.name())
    }
}

impl Error for DevicesRefusal {}

/// Why a text was not read.
#[derive(Clone, Copy, Debug, PartialEq, Eq)]
pub enum DevicesFault {
    /// The line, counted from 1, and what is wrong there.
    Refused {
        line: usize,
        refusal: DevicesRefusal,
    },
    /// Memory ran out.
    Memory,
}

impl fmt::Display for DevicesFault {
    ghost output = { λ fault. Some (fault_text fault) };

    fn fmt<W: fmt::Write>(&self, f: &mut fmt::Formatter<W>) -> fmt::Result {
        match self {
            DevicesFault::Refused { line, refusal } => write!(f, "fault line {line} {refusal}"),
            DevicesFault::Memory => write!(f, "fault Memory"),
        }
    }
}

impl Error for DevicesFault {}

impl From<AllocError> for DevicesFault {
    ghost from_gives = { λ _ fault. fault ≡ Memory };

    fn from(_error: AllocError) -> DevicesFault {
        DevicesFault::Memory
    }
}

impl<T: Drop> From<AllocFailed<T>> for DevicesFault {
    ghost from_gives = { λ _ fault. fault ≡ Memory };

    fn from(_error: AllocFailed<T>) -> DevicesFault {
        DevicesFault::Memory
    }
}

/// Why a line was not read.
#[derive(Clone, Copy, PartialEq, Eq)]
pub(crate) enum LineFault {
    Refused(DevicesRefusal),
    Memory,
}

impl From<DevicesRefusal> for LineFault {
    ghost from_gives = { λ refusal fault. fault ≡ lines.Refused refusal };

    fn from(refusal: DevicesRefusal) -> LineFault {
        LineFault::Refused(refusal)
    }
}

impl From<AllocError> for LineFault {
    ghost from_gives = { λ _ fault. fault ≡ lines.Memory };

    fn from(_error: AllocError) -> LineFault {
        LineFault::Memory
    }
}

impl<T: Drop> From<AllocFailed<T>> for LineFault {
    ghost from_gives = { λ _ fault. fault ≡ lines.Memory };

    fn from(_error: AllocFailed<T>) -> LineFault {
        LineFault::Memory
    }
}
