//! What a startup packet asks for: the versions of the protocol, and protocol options, by name.

ghost use Rattle.std.specs.Prelude.{◌≡◌, ◌∷◌, ◌++◌, [], map, IfErr, IfOk, OnOk};
ghost use Rattle.std.specs.List.{filter};
ghost use Rattle.pgp_base.specs.Cause.{WantsMemory};
ghost use Rattle.pgp_frontend.specs.ClientMessage.{Startup};
ghost use Rattle.pgp_frontend.specs.Given.{shown as shown_pair};
ghost use Rattle.pgp_login.specs.Timely.{is_among};
ghost use Rattle.pgp_session.specs.Connection.{is_option, offered_in, options_of};

use pgp_base::{Error, Memory};
use pgp_login::{Sent, Versions};
use std::alloc::Allocator;
use std::marker::Model;

/// The name of a protocol option. Its bytes are a copy: those of the packet are gone once it was sent.
#[derive(Drop)]
pub(crate) struct OptionName<A: Allocator> {
    bytes: Vec<u8, A>,
}

impl<A: Allocator> Model for OptionName<A> {
    ghost use Rattle.std.specs.Prelude.{ℕ, List};

    ghost Value = { List ℕ };

    ghost view = { λ name. name.bytes.items };
}

/// What a connection keeps of its startup packet.
#[derive(Drop)]
pub(crate) struct Offered<A: Allocator> {
    pub(crate) versions: Versions,
    pub(crate) names: Vec<OptionName<A>, A>,
}

impl<A: Allocator> Sent for Offered<A> {
    ghost offered = { offered_in };

    fn versions(&self) -> Versions {
        self.versions
    }

    fn has(&self, name: &[u8]) -> bool {
        is_among(&self.names, name)
    }
}

/// The names of the protocol options among the parameters of a startup packet.
pub(crate) fn option_names<A: Memory>(
    alloc: A,
    parameters: &[(&str, &str)],
) -> Result<Vec<OptionName<A>, A>, Error>
    ensures ok { IfOk result (λ names. names.items ≡ options_of (Startup 0 (map shown_pair parameters.now))) }
    ensures err { IfErr result (WantsMemory A.Lacks) }
{
    let mut names = Vec::new(alloc);
    'each: for parameter in parameters {
        match note(alloc, parameter.0, &mut names) {
            Ok(()) => {}
            Err(e) => return Err(e),
        }
    }
    Ok(names)
}

/// Keeps the name if it is a protocol option's.
fn note<A: Memory>(alloc: A, name: &str, names: &mut Vec<OptionName<A>, A>) -> Result<(), Error>
    ensures ok { OnOk result (names.new.items ≡ names.old.items ++ filter is_option (name.now ∷ [])) }
    ensures err { IfErr result (WantsMemory A.Lacks) }
{
    if !name.as_bytes().starts_with(b"_pq_.") {
        return Ok(());
    }
    let Ok(bytes) = alloc.list_of(name.as_bytes()) else {
        return Err(Error::OutOfMemory);
    };
    match A::push(names, OptionName { bytes }) {
        Ok(()) => Ok(()),
        Err(_) => Err(Error::OutOfMemory),
    }
}

/// Whether this name was sent.
fn is_among<A: Allocator>(sent: &[OptionName<A>], name: &[u8]) -> bool
    ensures { result ≡ is_among sent.now name.now }
{
    let mut found = false;
    'each: for option in sent {
        found |= option.bytes.as_slice() == name;
    }
    found
}
