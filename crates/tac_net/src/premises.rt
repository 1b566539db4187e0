//! What the threads of a server share.

use crate::hashing::Hashing;
use crate::intake::Intake;
use crate::listeners::Listeners;
use crate::settings::Settings;
use crate::vigil::Vigil;
use tac_desk::Desk;
use tac_hall::{Hall, Run};
use tac_status::Counts;

/// What the threads of a server share.
#[derive(Clone, Copy)]
pub(crate) struct Premises<'a, R, J: Run, D: Desk, L> {
    pub(crate) rt: &'a R,
    pub(crate) listeners: &'a Listeners,
    pub(crate) desk: &'a Hall<J, D>,
    pub(crate) settings: &'a Settings,
    pub(crate) vigil: &'a Vigil,
    pub(crate) intake: &'a Intake,
    pub(crate) hashing: &'a Hashing,
    pub(crate) log: &'a L,
    pub(crate) counts: &'a Counts,
}
