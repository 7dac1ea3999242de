//! Laws of whole streams: what a server that knows only the grammar reads of a client's bytes. Laws of values in
//! messages: arrays that are bound, and rows that are read.

ghost use Rattle.std.specs.Prelude.{◌≡◌, ℕ, ◌<◌, ◌^◌, List, [], ◌∷◌, ◌++◌, None};
ghost use Rattle.pgp_frontend.specs.ClientMessage.{ClientMessage, PasswordKind, Startup};
ghost use Rattle.pgp_frontend.specs.Payload.{bytes_of, cause, IsInRange};
ghost use Rattle.pgp_frontend.specs.ClientRun.{ClientRun, MayCome, is_opened, kinds_of};

mod array;
mod row;
mod sasl;
mod window;

pub use array::{Step, bind_array, bind_one, bound_arrays_read_back};
pub use row::row_int4;
pub use sasl::{SaslRefusal, sasl_exchange};
pub use window::{
    arrays_that_fit_are_bound, piece_in_a_window, statement_in_a_window, what_fits_is_added,
};

/// A server that is given the kinds reads the bytes in one way.
pub fn one_reading()
    ensures { (kinds : List PasswordKind) (messages others : List ClientMessage) (bytes : List ℕ) →
        ClientRun kinds messages bytes → ClientRun kinds others bytes → messages ≡ others }
{}

/// The messages determine the bytes, and the kinds.
pub fn one_spelling()
    ensures { (kinds more : List PasswordKind) (messages : List ClientMessage) (bytes others : List ℕ) →
        ClientRun kinds messages bytes → ClientRun more messages others → (bytes ≡ others) × (kinds ≡ more) }
{}

/// A message that may come is read after the others, and opens the session where it is a startup packet.
pub fn one_message_more()
    ensures { (kinds : List PasswordKind) (messages : List ClientMessage) (message : ClientMessage) (bytes : List ℕ) →
        ClientRun kinds messages bytes → MayCome message (is_opened messages) → cause message ≡ None → IsInRange message →
        ClientRun (kinds ++ kinds_of message) (messages ++ message ∷ []) (bytes ++ bytes_of message) }
{}

/// Whatever a server is reported, it reads a startup packet or reads none.
pub fn one_phase()
    ensures { (kinds more : List PasswordKind) (messages others : List ClientMessage) (bytes : List ℕ) →
        ClientRun kinds messages bytes → ClientRun more others bytes → is_opened messages ≡ is_opened others }
{}

/// No server reads a startup packet with an empty name, as it is written with the value `x`, whatever its minor version is.
pub fn no_empty_name()
    ensures { (minor : ℕ) (kinds : List PasswordKind) (messages : List ClientMessage) → minor < 2 ^ 16 →
        ClientRun kinds messages (bytes_of (Startup minor (([], 120 ∷ []) ∷ []))) → ⊥ }
{}

/// Later bytes change nothing that was read.
pub fn what_was_read_stands()
    ensures { (kinds later : List PasswordKind) (messages others : List ClientMessage) (bytes more : List ℕ) →
        ClientRun kinds messages bytes → ClientRun (kinds ++ later) others (bytes ++ more) →
        (added : List ClientMessage) × (others ≡ messages ++ added) }
{}
