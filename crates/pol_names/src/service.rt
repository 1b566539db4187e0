//! Services: what devices ask for beside commands, and what a line of a policy says of one.

ghost use Rattle.std.specs.Prelude.{◌≡◌, ◌↔◌, IsTrue, Some, IfSome, IfOk};
ghost use Rattle.std.specs.List.{position};
ghost use Rattle.std.specs.Option.{option_map};
ghost use Rattle.pol_names.specs.SameService.{same_service, same_says, same_line};
ghost use Rattle.pol_names.specs.Service.{is_service, is_right_line, service_of, service_text};
ghost use Rattle.pol_names.specs.Service.{allowing};
ghost use Rattle.pol_names.specs.declared.service.Says.TheVariants.{Allows};
ghost use Rattle.pol_names.specs.Service as services;
ghost use Rattle.pol_names.specs.declared.service.ServiceId.{ServiceId as ServiceValue};

use crate::name::Name;
use basics::{Bytes, StructuralEq, is_text, split_once};
use std::alloc::{AllocError, Global};
use std::fmt;

// The most symbols of an attribute, whose length is one byte of a reply (RFC 8907, section 6.2).
const MAX_ATTRIBUTE: usize = 255;

/// A service, and perhaps a protocol of it: what a device names in its arguments `service` and
/// `protocol` (RFC 8907, section 8.2). They are compared byte for byte.
#[derive(Clone, Copy, Debug)]
pub struct ServiceId {
    pub name: Name,
    pub protocol: Option<Name>,
}

// Not derived, so that contracts compare services by the test of the definitions.
impl PartialEq for ServiceId {
    ghost use Rattle.std.specs.Cmp.{decided, partial_equiv_from_equiv};
    ghost use Rattle.pol_names.specs.SameService.{same_service, same_service-Decides};

    ghost eq = { same_service };

    ghost laws = { partial_equiv_from_equiv (decided same_service same_service-Decides) };

    fn eq(&self, other: &ServiceId) -> bool
        ensures eq { result ≡ same_service self.now other.now }
        ensures same { IsTrue result ↔ (self.now ≡ other.now) }
    {
        self.name == other.name && self.protocol == other.protocol
    }
}

impl Eq for ServiceId {
    ghost use Rattle.std.specs.Cmp.{decided};
    ghost use Rattle.pol_names.specs.SameService.{same_service, same_service-Decides};

    ghost laws = { decided same_service same_service-Decides };
}

// The service that the text names, if any.
fn read_service(text: &[u8]) -> Option<ServiceId>
    ensures { result ≡ service_of text.now }
{
    match split_once(text, b'/') {
        Some((name, protocol)) => {
            if name == b"shell".as_slice() {
                return None;
            }
            let name = Name::read(name)?;
            let protocol = Name::read(protocol)?;
            Some(ServiceId {
                name,
                protocol: Some(protocol),
            })
        }
        None => {
            let name = Name::read(text)?;
            Some(ServiceId {
                name,
                protocol: None,
            })
        }
    }
}

impl ServiceId {
    /// The service that the text names: `NAME` or `NAME/PROTOCOL`; `None` for an invalid text. A
    /// shell has no protocol. Takes no memory.
    #[tactic(auto, using(crate::proofs::ServiceFacts::found, crate::proofs::ServiceFacts::again))]
    pub fn read(text: &[u8]) -> Option<ServiceId>
        ensures exact { result ≡ service_of text.now }

        // What is read is spelled so.
        ensures found { IfSome result
            (λ service. IsTrue (is_service service) × (text.now ≡ service_text service)) }

        // What is spelled so is read.
        ensures only { (service : ServiceValue) → IsTrue (is_service service) →
            text.now ≡ service_text service → result ≡ Some service }
    {
        read_service(text)
    }

    // Whether it is the shell, whatever its protocol.
    fn is_shell(&self) -> bool
        ensures { result ≡ services.is_shell self.now.name }
    {
        self.name.as_slice() == b"shell".as_slice()
    }

    // Whether some text names it: a shell has no protocol.
    fn is_right(self) -> bool
        ensures { result ≡ services.is_service self }
    {
        !(self.is_shell() && self.protocol.is_some())
    }
}

impl ServiceId {
    /// Whether a line may say that the service may be used, and gives this attribute, if there is
    /// one. Linear in the attribute.
    pub fn may_give(&self, attribute: &Option<Bytes>) -> bool
        ensures { result ≡ is_right_line (allowing self.now attribute.now) }
    {
        match attribute {
            Some(text) => self.is_right() && may_have(self, text.as_slice()),
            None => self.is_right(),
        }
    }
}

/// `NAME` or `NAME/PROTOCOL`.
impl fmt::Display for ServiceId {
    ghost use Rattle.std.specs.Prelude.{Some};
    ghost use Rattle.pol_names.specs.Service.{service_text};

    ghost output = { λ service. Some (service_text service) };

    fn fmt<W: fmt::Write>(&self, f: &mut fmt::Formatter<W>) -> fmt::Result {
        f.write_str(self.name.as_str())?;
        match &self.protocol {
            Some(protocol) => {
                f.write_str("/")?;
                f.write_str(protocol.as_str())
            }
            None => Ok(()),
        }
    }
}

fn is_sign(byte: u8) -> bool
    ensures { result ≡ services.is_sign byte }
{
    byte == b'=' || byte == b'*'
}

fn first_sign(text: &[u8]) -> Option<usize>
    ensures { result ≡ position services.is_sign text.now }
{
    text.iter().position(|byte| is_sign(*byte))
}

// What stands before the first sign.
fn attribute_name(text: &[u8]) -> Option<&[u8]>
    ensures { option_map (λ name. name.now) result ≡ services.attribute_name text.now }
{
    let Some(at) = first_sign(text) else {
        return None;
    };
    Some(&text[..at])
}

fn lacks_blanks(text: &[u8]) -> bool
    ensures { result ≡ services.lacks_blanks text.now }
{
    text.iter().all(|byte| *byte != b' ')
}

fn is_attribute_name(name: &[u8]) -> bool
    ensures { result ≡ services.is_attribute_name name.now }
{
    !name.is_empty() && lacks_blanks(name)
}

fn has_attribute_name(text: &[u8]) -> bool
    ensures { result ≡ services.has_attribute_name text.now }
{
    match attribute_name(text) {
        Some(name) => is_attribute_name(name),
        None => false,
    }
}

fn is_attribute(text: &[u8]) -> bool
    ensures { result ≡ services.is_attribute text.now }
{
    is_text(text) && text.len() <= MAX_ATTRIBUTE && has_attribute_name(text)
}

// Whether the attribute says a level.
fn is_level(text: &[u8]) -> bool
    ensures { result ≡ services.is_level text.now }
{
    match attribute_name(text) {
        Some(name) => name == b"priv-lvl".as_slice(),
        None => false,
    }
}

// Whether the service may give the attribute: a shell's level is no attribute.
fn may_have(service: &ServiceId, text: &[u8]) -> bool
    ensures { result ≡ services.may_say service.now (Allows (Some text.now)) }
{
    is_attribute(text) && !(service.is_shell() && is_level(text))
}

/// What a line says of a service.
#[derive(Drop)]
pub enum Says {
    /// It may be used, and a device is given this attribute, if there is one.
    Allows(Option<Bytes>),
    /// It may not be used.
    Refuses,
}

impl PartialEq for Says {
    ghost use Rattle.std.specs.Cmp.{decided, partial_equiv_from_equiv};
    ghost use Rattle.pol_names.specs.SameService.{same_says, same_says-Decides};

    ghost eq = { same_says };

    ghost laws = { partial_equiv_from_equiv (decided same_says same_says-Decides) };

    fn eq(&self, other: &Says) -> bool
        ensures eq { result ≡ same_says self.now other.now }
        ensures same { IsTrue result ↔ (self.now ≡ other.now) }
    {
        match (self, other) {
            (Says::Allows(None), Says::Allows(None)) | (Says::Refuses, Says::Refuses) => true,
            (Says::Allows(Some(one)), Says::Allows(Some(two))) => one.as_slice() == two.as_slice(),
            _ => false,
        }
    }
}

impl Eq for Says {
    ghost use Rattle.std.specs.Cmp.{decided};
    ghost use Rattle.pol_names.specs.SameService.{same_says, same_says-Decides};

    ghost laws = { decided same_says same_says-Decides };
}

/// A line of a subject about a service: `service S`, `service S ATTRIBUTE` or `refuse S`. An
/// attribute is kept as it is written, with its sign.
#[derive(Drop)]
pub struct ServiceLine {
    pub service: ServiceId,
    pub says: Says,
}

impl PartialEq for ServiceLine {
    ghost use Rattle.std.specs.Cmp.{decided, partial_equiv_from_equiv};
    ghost use Rattle.pol_names.specs.SameService.{same_line, same_line-Decides};

    ghost eq = { same_line };

    ghost laws = { partial_equiv_from_equiv (decided same_line same_line-Decides) };

    fn eq(&self, other: &ServiceLine) -> bool
        ensures eq { result ≡ same_line self.now other.now }
        ensures same { IsTrue result ↔ (self.now ≡ other.now) }
    {
        self.service == other.service && self.says == other.says
    }
}

impl Eq for ServiceLine {
    ghost use Rattle.std.specs.Cmp.{decided};
    ghost use Rattle.pol_names.specs.SameService.{same_line, same_line-Decides};

    ghost laws = { decided same_line same_line-Decides };
}

impl StructuralEq for ServiceLine {
    ghost use Rattle.pol_names.specs.SameService.{same_line-identical};

    ghost identical = { same_line-identical };
}

impl ServiceLine {
    /// The word that the line begins with, and the space after it.
    pub fn keyword(&self) -> &'static str
        ensures { result.now ≡ services.says_word self.now.says }
    {
        match &self.says {
            Says::Allows(_) => "service ",
            Says::Refuses => "refuse ",
        }
    }

    /// Whether a policy may have the line: its attribute is a name without blanks, `=` or `*`, and
    /// a value, of at most 255 symbols together, and it neither refuses a shell nor gives it a
    /// level. Linear in the attribute.
    pub fn is_right(&self) -> bool
        ensures { result ≡ services.is_right_line self.now }
    {
        match &self.says {
            Says::Allows(attribute) => self.service.may_give(attribute),
            Says::Refuses => self.service.is_right() && !self.service.is_shell(),
        }
    }

    // Whether both give an attribute, and another one.
    fn gives_other(&self, other: &ServiceLine) -> bool
        ensures { result ≡ services.give_others self.now.says other.now.says }
    {
        match (&self.says, &other.says) {
            (Says::Allows(Some(one)), Says::Allows(Some(two))) => one.as_slice() != two.as_slice(),
            _ => false,
        }
    }

    /// Whether a subject may not have both lines: they are of one service, and don't give two
    /// different attributes.
    pub fn clashes(&self, other: &ServiceLine) -> bool
        ensures { result ≡ services.clash self.now other.now }
    {
        self.service == other.service && !self.gives_other(other)
    }

    // Whether the line gives this attribute; where none is named, whatever it says.
    fn gives(&self, attribute: &Option<Bytes>) -> bool
        ensures { result ≡ services.gives attribute.now self.now.says }
    {
        match (attribute, &self.says) {
            (None, _) => true,
            (Some(text), Says::Allows(Some(given))) => text.as_slice() == given.as_slice(),
            (Some(_), _) => false,
        }
    }

    /// Whether the line goes where all lines of the service are cleared, or that of this attribute.
    pub fn is_cleared(&self, service: &ServiceId, attribute: &Option<Bytes>) -> bool
        ensures { result ≡ services.is_cleared service.now attribute.now self.now }
    {
        *service == self.service && self.gives(attribute)
    }

    /// A copy of the line. The error means that memory ran out.
    pub fn copy(&self, alloc: Global) -> Result<ServiceLine, AllocError>
        ensures { IfOk result (λ copy. copy ≡ self.now) }
    {
        let says = match &self.says {
            Says::Allows(Some(attribute)) => {
                let copy = attribute.copy(alloc)?;
                Says::Allows(Some(copy))
            }
            Says::Allows(None) => Says::Allows(None),
            Says::Refuses => Says::Refuses,
        };
        Ok(ServiceLine {
            service: self.service,
            says,
        })
    }
}
