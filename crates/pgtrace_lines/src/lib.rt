//! Shows a person what a PostgreSQL server or client sent, a line a message, as it comes: what the program `pgtrace` runs.
#![tactic(auto)]

pub mod answer;
pub mod body;
pub mod client;
pub mod client_body;
pub mod client_lists;
pub mod client_names;
pub mod frame;
pub mod hint;
pub mod inner;
pub mod laws;
pub mod line_names;
pub mod lists;
pub mod marking;
pub mod names;
pub mod next;
pub mod options;
pub mod pipe;
pub mod plain_body;
pub mod ports;
pub mod replication;
pub mod side;
pub mod stream;
pub mod unread;
pub mod view;
