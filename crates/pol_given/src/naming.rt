//! Which service a device asks for.

ghost use Rattle.std.specs.Prelude.{◌≡◌};
ghost use Rattle.std.specs.Option.{option_copied};
ghost use Rattle.pol_given.specs.Given.{the_shell, service_named as named_so};

use pol_names::{Name, ServiceId};

/// The service of a shell. Takes no memory.
#[tactic(auto, unfolding(pol_names::specs::Name::is_name_byte))]
pub fn shell() -> ServiceId
    ensures { result ≡ the_shell }
{
    match Name::read(b"shell") {
        Some(name) => ServiceId {
            name,
            protocol: None,
        },
        None => unreachable!(),
    }
}

/// The service that a request names by these texts; `None` where no line of a policy could be about
/// it: one of the texts is no name, or a shell has a protocol. Takes no memory.
pub fn service_named(service: &[u8], protocol: Option<&[u8]>) -> Option<ServiceId>
    ensures { result ≡ named_so service.now (option_copied protocol.entry) }
{
    let name = Name::read(service)?;
    let protocol = match protocol {
        Some(protocol) => Some(Name::read(protocol)?),
        None => None,
    };
    let named = ServiceId { name, protocol };
    if named.may_give(&None) {
        Some(named)
    } else {
        None
    }
}
