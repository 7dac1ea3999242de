//! What the requests of a connection ran: of each statement how often it ran, the rows that the server sent, and how long each run took. It knows requests by
//! their numbers, in the order in which they were sent, and of the server's messages those that belong to them.
#![tactic(auto)]

mod entry;
mod fold;
pub mod laws;
mod memory;
mod named;
mod names;
mod ranking;
mod summary;
mod waiting;
mod work;

pub use entry::{Entry, Line};
pub use memory::MapMemory;
pub use names::Names;
pub use ranking::sum_of;
pub use summary::Summary;
pub use work::{Reply, Work};
