//! The log-in of a client as one machine, over whatever keeps its exchange of SCRAM-SHA-256.
#![tactic(auto)]

mod asked;
mod caller;
mod exchange;
mod face;
mod fault;
mod held;
pub mod laws;
mod login;
mod storage;
mod timely;
mod versions;

pub use caller::Caller;
pub use exchange::{Exchange, put};
pub use face::{PgpLogin, PgpWays, answer, answered_at, answered_code};
pub use fault::LoginError;
pub use held::HeldWays;
pub use login::{Login, LoginPhase, Ways, hear};
pub use storage::LoginStorage;
pub use timely::{Sent, is_timely, limit};
pub use versions::{Versions, version_after};
