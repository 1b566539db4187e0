//! Secrets and levels.

use crate::plan::Plan;
use crate::turning::secret_edit;
use pol_edit::Edit;
use pol_names::Credential;
use pol_text::Subject;
use std::alloc::{AllocError, Global};

/// Gives a subject that is there the secrets and the level that this one has.
pub(crate) fn set(alloc: Global, plan: &mut Plan, subject: &Subject) -> Result<(), AllocError> {
    let Some(present) = plan.made().find(&subject.id()) else {
        return Ok(());
    };
    let login = present.login != subject.login;
    let enable = present.enable != subject.enable;
    let level = present.priv_lvl != subject.priv_lvl;
    let user = subject.name;
    if login {
        let edit = secret_edit(alloc, Credential::Login, user, &subject.login)?;
        plan.add(alloc, edit)?;
    }
    if enable {
        let edit = secret_edit(alloc, Credential::Enable, user, &subject.enable)?;
        plan.add(alloc, edit)?;
    }
    if level {
        let level = subject.priv_lvl.map(u16::from);
        plan.add(
            alloc,
            Edit::SetPriv {
                subject: subject.id(),
                level,
            },
        )?;
    }
    Ok(())
}
