//! What is remarked on keys and common names that may stand.

ghost use Rattle.std.specs.Prelude.{◌≡◌, ◌++◌, Some, IfOk, OnOk, find, bytes_eq, false};
ghost use Rattle.std.specs.Option.{option_to_list, option_copied, option_map_or};
ghost use Rattle.tac_devices.specs.Remarks as remarks;

use crate::device::{Device, Secret, Tls};
use crate::devices::Devices;
use crate::doubt::KeyDoubt;
use basics::Sequence;
use std::alloc::{AllocError, Global};
use std::fmt;
use tac_proxy::CommonName;

/// The least size of a key on which nothing is remarked.
const LEAST_KEY: usize = 16;

/// What is remarked on a line that says a key, or a common name.
#[derive(Clone, Copy, Debug, PartialEq, Eq)]
pub enum Remark {
    /// An earlier device has this key; the line of the first that has it.
    SameKey { line: usize, first: usize },
    /// The key has fewer than 16 symbols, so many.
    ShortKey { line: usize, size: usize },
    /// It is doubtful that the key, or the old one, is the one that was meant.
    Doubtful { line: usize, doubt: KeyDoubt },
    /// An old key is still taken of a device that may come inside TLS; the line that says that.
    OldKeyBesideTls { line: usize, tls: usize },
    /// An earlier device comes with this common name; the line of the first that does.
    SameName { line: usize, first: usize },
}

impl fmt::Display for Remark {
    ghost output = { λ remark. Some (remarks.remark_text remark) };

    fn fmt<W: fmt::Write>(&self, f: &mut fmt::Formatter<W>) -> fmt::Result {
        match self {
            Remark::SameKey { line, first } => write!(f, "line {line}: the key of line {first}"),
            Remark::ShortKey { line, size } => write!(f, "line {line}: a key of {size} characters"),
            Remark::Doubtful { line, doubt } => write!(f, "line {line}: {doubt}"),
            Remark::OldKeyBesideTls { line, tls } => {
                write!(f, "line {line}: an old key beside the 'tls' of line {tls}")
            }
            Remark::SameName { line, first } => {
                write!(f, "line {line}: the common name of line {first}")
            }
        }
    }
}

fn has_key(device: &Device, key: &[u8]) -> bool
    ensures { result ≡ option_map_or (λ secret. bytes_eq secret.keys.present key.now)
        device.now.secret false }
{
    match &device.secret {
        Some(secret) => secret.keys.present.as_slice() == key,
        None => false,
    }
}

fn device_with<'a>(devices: &'a [Device], key: &[u8]) -> Option<&'a Device>
    ensures { option_copied result ≡ find (λ device. option_map_or
        (λ secret. bytes_eq secret.keys.present key.now) device.secret false) devices.now }
{
    devices.iter().find(|device| has_key(device, key))
}

// The secret of the first device with this key.
fn with_key<'a>(devices: &'a [Device], key: &[u8]) -> Option<&'a Secret>
    ensures { option_copied result ≡ find (λ other. bytes_eq other.keys.present key.now)
        (remarks.secrets_of devices.now) }
{
    match device_with(devices, key) {
        Some(device) => device.secret.as_ref(),
        None => None,
    }
}

fn same_key(earlier: &[Device], secret: &Secret) -> Option<Remark>
    ensures { result ≡ remarks.same_key (remarks.secrets_of earlier.now) secret.now }
{
    match with_key(earlier, secret.keys.present.as_slice()) {
        Some(first) => Some(Remark::SameKey {
            line: secret.line,
            first: first.line,
        }),
        None => None,
    }
}

fn short_key(secret: &Secret) -> Option<Remark>
    ensures { result ≡ remarks.short_key secret.now }
{
    let size = secret.keys.present.as_slice().len();
    if size < LEAST_KEY {
        return Some(Remark::ShortKey {
            line: secret.line,
            size,
        });
    }
    None
}

// The key that a line says is doubtful.
fn doubtful(line: usize, key: &[u8]) -> Option<Remark>
    ensures { result ≡ remarks.doubtful line key.now }
{
    match KeyDoubt::of(key) {
        Some(doubt) => Some(Remark::Doubtful { line, doubt }),
        None => None,
    }
}

fn doubtful_key(secret: &Secret) -> Option<Remark>
    ensures { result ≡ remarks.doubtful_key secret.now }
{
    doubtful(secret.line, secret.keys.present.as_slice())
}

fn doubtful_old_key(secret: &Secret) -> Option<Remark>
    ensures { result ≡ remarks.doubtful_old_key secret.now }
{
    match (secret.old_line, &secret.keys.old) {
        (Some(line), Some(old)) => doubtful(line, old.as_slice()),
        _ => None,
    }
}

// An old key beside `tls`, which this line says, if one does.
fn old_key_beside(secret: &Secret, tls: Option<usize>) -> Option<Remark>
    ensures { result ≡ remarks.old_key_beside secret.now tls }
{
    match (secret.old_line, tls) {
        (Some(line), Some(tls)) => Some(Remark::OldKeyBesideTls { line, tls }),
        _ => None,
    }
}

// Whether a device comes with certificates of this common name.
fn wants(device: &Device, name: &CommonName) -> bool
    ensures { result ≡ remarks.wants name.now device.now }
{
    match &device.tls {
        Some(Tls::Named(wanted)) => wanted.is(name),
        _ => false,
    }
}

fn device_wanting<'a>(devices: &'a [Device], name: &CommonName) -> Option<&'a Device>
    ensures { option_copied result ≡ find (remarks.wants name.now) devices.now }
{
    devices.iter().find(|device| wants(device, name))
}

// The line that says `tls` of the first device with this common name.
fn first_wanting(devices: &[Device], name: &CommonName) -> Option<usize>
    ensures { result ≡ remarks.first_wanting name.now devices.now }
{
    match device_wanting(devices, name) {
        Some(device) => device.tls_line,
        None => None,
    }
}

// The common name, which this line says, if there is one, is that of an earlier device.
fn same_name_as(earlier: &[Device], line: usize, tls: &Tls) -> Option<Remark>
    ensures { result ≡ remarks.same_name_as earlier.now line tls.now }
{
    let Tls::Named(name) = tls else {
        return None;
    };
    match first_wanting(earlier, name) {
        Some(first) => Some(Remark::SameName { line, first }),
        None => None,
    }
}

fn same_name(earlier: &[Device], device: &Device) -> Option<Remark>
    ensures { result ≡ remarks.same_name earlier.now device.now }
{
    match (device.tls_line, &device.tls) {
        (Some(line), Some(tls)) => same_name_as(earlier, line, tls),
        _ => None,
    }
}

fn add(found: &mut Sequence<Remark>, remark: Option<Remark>) -> Result<(), AllocError>
    ensures { OnOk result (found.new ≡ found.old ++ option_to_list remark) }
{
    if let Some(remark) = remark {
        found.push(remark)?;
    }
    Ok(())
}

// Adds what is remarked on a key.
fn add_of_key(
    found: &mut Sequence<Remark>,
    earlier: &[Device],
    secret: &Secret,
) -> Result<(), AllocError>
    ensures { OnOk result (found.new ≡ found.old
        ++ remarks.on_key (remarks.secrets_of earlier.now) secret.now) }
{
    add(found, same_key(earlier, secret))?;
    add(found, short_key(secret))?;
    add(found, doubtful_key(secret))
}

// Adds what is remarked on an old key, if there is one, of a device whose `tls` this line says.
fn add_of_old_key(
    found: &mut Sequence<Remark>,
    secret: &Secret,
    tls: Option<usize>,
) -> Result<(), AllocError>
    ensures { OnOk result (found.new ≡ found.old ++ remarks.on_old_key secret.now tls) }
{
    add(found, doubtful_old_key(secret))?;
    add(found, old_key_beside(secret, tls))
}

// Adds what is remarked on a device, which these are before.
fn add_of_device(
    found: &mut Sequence<Remark>,
    earlier: &[Device],
    device: &Device,
) -> Result<(), AllocError>
    ensures { OnOk result (found.new ≡ found.old
        ++ remarks.on_device earlier.now device.now) }
{
    if let Some(secret) = &device.secret {
        add_of_key(found, earlier, secret)?;
        add_of_old_key(found, secret, device.tls_line)?;
    }
    add(found, same_name(earlier, device))
}

impl Devices {
    /// What is remarked on the devices, in their order: on a key that it stands twice, is short or
    /// is doubtful; on an old one that it is doubtful, or stands beside `tls`; and on a common name
    /// that it stands twice. Quadratic in the devices. The error means that memory ran out.
    pub fn remarks(&self, alloc: Global) -> Result<Sequence<Remark>, AllocError>
        ensures { IfOk result (λ found. found ≡ remarks.remarks_of self.now) }
    {
        let devices = self.as_slice();
        let mut found = Sequence::new(alloc);
        'devices: for place in 0..devices.len() {
            add_of_device(&mut found, &devices[..place], &devices[place])?;
        }
        Ok(found)
    }
}
