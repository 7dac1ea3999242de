//! What holds of a client's core and a server's core together, each of which is handed what the other sends.

ghost use Rattle.std.specs.Prelude.{◌≡◌, ◌≤◌, max, ℕ};
ghost use Rattle.pgp_auth.specs.ScramClient.{Client as Exchange};
ghost use Rattle.pgp_session.specs.Connection.{Shown as Connected};
ghost use Rattle.pgp_session.specs.declared.serving.Serving.{Serving as Server};
ghost use Rattle.pgp_uses.specs.BothEnds.{ConnectionLogsIn, Facing, HasStarted};

use pgp_base::{Buffer, Memory};

/// A `Connection` that admits SCRAM-SHA-256 with the right password, whatever else it admits, and a `Serving` that holds the password's verifier log in, whatever the password,
/// the salt, the nonces and the count, from the rounds that the client asks for up to the 100,000 that it makes. Each takes what the other sends, unless it lacks memory for
/// its reply, or the reply is too long for a message; and after the last step both are logged in. Of each message that `next` takes, it gives the event of the startup packet.
pub fn connection_is_let_in<A: Memory, C: Memory, D: Buffer>()
    ensures { (name : ℕ) (exchange : Exchange) (client : Connected) (server : Server C) → HasStarted name exchange client → (facing : Facing exchange server)
        → max client.login.least 1 ≤ facing.count → ConnectionLogsIn A A.Lacks C.Lacks D.Lacks name client server }
{
    pgp_message::laws::one_list_of_mechanisms();
    pgp_message_write::laws::mechanisms_are_read();
    pgp_message_write::laws::one_reply_is_taken();
    pgp_message::laws::no_frame();
    pgp_message::laws::next_frame();
}
