//! Which services two policies name.

ghost use Rattle.std.specs.Prelude.{◌≡◌, IfOk, OnOk};
ghost use Rattle.std.specs.Hash.{same_Alike};
ghost use Rattle.pol_names.specs.SameService.{same_service, same_service-Decides};
ghost use Rattle.pol_meaning.specs.ServiceChanges.{with_service, with_named, with_all_named};
ghost use Rattle.pol_meaning.specs.ServiceChanges.{services_named as named_by};
ghost use Rattle.pol_report.specs.Asking.{service_input};

use indexmap::IndexSet;
use pol_given::shell;
use pol_names::{ServiceId, ServiceLine};
use pol_text::{Policy, Subject};
use std::alloc::{AllocError, Global};
use std::hash::{Hash, Hasher};
use std::marker::Model;

/// A service that is looked up by a hash. A contract sees the service.
#[derive(Drop)]
pub(crate) struct Named {
    pub(crate) service: ServiceId,
}

impl Model for Named {
    ghost use Rattle.pol_names.specs.declared.service.ServiceId.{ServiceId as ServiceValue};

    ghost Value = { ServiceValue };

    ghost view = { λ named. named.service };
}

impl PartialEq for Named {
    ghost use Rattle.std.specs.Cmp.{decided, partial_equiv_from_equiv};
    ghost use Rattle.pol_names.specs.SameService.{same_service, same_service-Decides};

    ghost eq = { same_service };

    ghost laws = { partial_equiv_from_equiv (decided same_service same_service-Decides) };

    fn eq(&self, other: &Named) -> bool
        ensures eq { result ≡ same_service self.now other.now }
    {
        self.service == other.service
    }
}

impl Eq for Named {
    ghost use Rattle.std.specs.Cmp.{decided};
    ghost use Rattle.pol_names.specs.SameService.{same_service, same_service-Decides};

    ghost laws = { decided same_service same_service-Decides };
}

impl Hash for Named {
    ghost hash_input = { service_input };

    ghost respects_eq = { (same_Alike service_input same_service-Decides).fed };

    fn hash<H: Hasher>(&self, state: &mut H) {
        self.service.name.hash(state);
        self.service.protocol.hash(state);
    }
}

// Adds the service, unless it is there.
fn add_service(services: &mut IndexSet<Named>, service: &ServiceId) -> Result<(), AllocError>
    ensures { OnOk result (services.new.keys ≡ with_service services.old.keys service.now) }
{
    services.insert(Named { service: *service })?;
    Ok(())
}

// Adds the services that the lines name and that aren't there.
fn add_named(services: &mut IndexSet<Named>, lines: &[ServiceLine]) -> Result<(), AllocError>
    ensures { OnOk result (services.new.keys ≡ with_named services.old.keys lines.now) }
{
    for line in lines {
        add_service(services, &line.service)?;
    }
    Ok(())
}

// Adds the services that the subjects' lines name and that aren't there.
fn add_all_named(services: &mut IndexSet<Named>, subjects: &[Subject]) -> Result<(), AllocError>
    ensures { OnOk result (services.new.keys ≡ with_all_named services.old.keys subjects.now) }
{
    for subject in subjects {
        add_named(services, subject.services.as_slice())?;
    }
    Ok(())
}

/// The shell, then the services that the new policy names, in the order in which it first does, and
/// then those that the old one alone names. A look-up for each line about services.
pub(crate) fn services_named(
    alloc: Global,
    before: &Policy,
    after: &Policy,
) -> Result<IndexSet<Named>, AllocError>
    ensures { IfOk result (λ services. services.keys ≡ named_by before.now after.now) }
{
    let mut services = IndexSet::new(alloc);
    add_service(&mut services, &shell())?;
    add_all_named(&mut services, after.subjects())?;
    add_all_named(&mut services, before.subjects())?;
    Ok(services)
}
