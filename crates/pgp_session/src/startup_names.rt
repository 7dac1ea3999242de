//! The names of a startup packet.

ghost use Rattle.std.specs.Prelude.{codes, option_map};
ghost use Rattle.pgp_session.specs.Serving.{IsNewer, NamesLast};

use pgp_base::FallibleIterator;
use pgp_frontend_read::StartupParameters;

/// What a startup packet names.
#[derive(Debug, Clone, Copy, PartialEq, Eq)]
pub struct StartupNames<'a> {
    pub user: Option<&'a [u8]>,
    /// Where there is none, a server takes the user's name.
    pub database: Option<&'a [u8]>,
}

/// The names of the user and of the database, of which the last counts where one stands twice, as in PostgreSQL.
pub fn startup_names(mut parameters: StartupParameters<'_>) -> StartupNames<'_>
    ensures user { NamesLast (codes "user") parameters.entry (option_map (λ text. text.now) result.user) }
    ensures database { NamesLast (codes "database") parameters.entry (option_map (λ text. text.now) result.database) }
{
    let (mut user, mut database) = (None, None);
    'pairs: loop {
        match parameters.next() {
            Ok(Some((name, value))) => {
                user = newer(b"user", name, value, user);
                database = newer(b"database", name, value, database);
            }
            Ok(None) | Err(_) => return StartupNames { user, database },
        }
    }
}

/// The value, if it is that of this name, or what was known before.
fn newer<'a>(key: &[u8], name: &[u8], value: &'a [u8], before: Option<&'a [u8]>) -> Option<&'a [u8]>
    ensures { IsNewer key.now name.now value.now (option_map (λ text. text.now) before.entry) (option_map (λ text. text.now) result) }
{
    if name == key { Some(value) } else { before }
}
