//! What the whole units in octets of DNS over TCP do (RFC 1035, 4.2.2): the addresses in them, what these are called in the other realm, how
//! they are entered into the list of their sender, and why the segment that completes them is refused (RFC 2694).
#![tactic(auto)]

mod called;
mod entered;
mod growth;
mod named;
mod octets;
mod plan;
mod sender;
mod session;
mod stop;

pub use dns_stream::Entry;
pub use octets::UnitOctets;
pub use plan::{Completed, Endpoints, UnitPlan, plan_units};
pub use sender::Sender;
pub use session::{Session, Tracked};
pub use stop::PlanStop;
