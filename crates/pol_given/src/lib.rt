//! Who decides on a service, and what it gives.
#![tactic(auto)]

mod comparing;
mod deciding;
mod giving;
mod grant;
mod granting;
mod naming;

pub use comparing::says_the_same;
pub use deciding::{attribute_in, refuses, speaking};
pub use giving::{level_argument, service_arguments, shell_arguments};
pub use grant::{Given, GivenArgument, Grant};
pub use granting::given;
pub use naming::{service_named, shell};
