//! A server's messages with lists of names, each at the front of memory of the caller's.

ghost use Rattle.std.specs.Prelude.{◌≡◌, ◌≢◌, ◌∷◌, map, pos};
ghost use Rattle.pgp_base.specs.Cause.{length_cause};
ghost use Rattle.pgp_frontend.specs.Payload.{Int32};
ghost use Rattle.pgp_message.specs.BackendMessage.{Authentication, AuthenticationSasl};
ghost use Rattle.pgp_message_write.specs.Given.{uncounted};
ghost use Rattle.pgp_message_write.specs.Lists.{marked_list, text_parts, wide_list};
ghost use Rattle.pgp_message_write.specs.Reply.{names_of, negotiation_of};
ghost use Rattle.for_c.specs.Replies.{name_of};
ghost use Rattle.for_c.specs.Replying.{NotRepliedList, RepliedList};

use crate::status::ended;
use pgp_base::Window;
use pgp_message_write::{authentication_sasl_of, negotiate_protocol_version_of};

/// A name, as one of a list.
#[repr(C)]
#[derive(Clone, Copy)]
pub struct PgpName<'a> {
    pub name: &'a [u8],
}

/// Offers these SASL mechanisms, the one that the server likes best first.
#[unsafe(no_mangle)]
pub extern "C" fn pgp_reply_authentication_sasl(
    mechanisms: &[PgpName<'_>],
    out: &mut [u8],
    written: &mut usize,
) -> u32
    ensures sent { result ≡ 0 → RepliedList uncounted (λ all. Int32 (pos 10) ∷ marked_list text_parts all) (Authentication (AuthenticationSasl (names_of (map name_of mechanisms.now)))) (map name_of mechanisms.now) out.old out.new written.new }
    ensures refused { result ≢ 0 → NotRepliedList uncounted (λ all. Int32 (pos 10) ∷ marked_list text_parts all) (Authentication (AuthenticationSasl (names_of (map name_of mechanisms.now)))) (map name_of mechanisms.now) out.old written.new result }
{
    let mut window = Window::new(out);
    let answer = authentication_sasl_of(mechanisms.iter().map(bytes_in), &mut window);
    ended(answer, &window, written)
}

/// The newest version that the server speaks, and the options of the startup packet that it doesn't know.
#[unsafe(no_mangle)]
pub extern "C" fn pgp_reply_negotiate_protocol_version(
    version: i32,
    options: &[PgpName<'_>],
    out: &mut [u8],
    written: &mut usize,
) -> u32
    ensures sent { result ≡ 0 → RepliedList length_cause (λ all. Int32 version ∷ wide_list text_parts all) (negotiation_of version (map name_of options.now)) (map name_of options.now) out.old out.new written.new }
    ensures refused { result ≢ 0 → NotRepliedList length_cause (λ all. Int32 version ∷ wide_list text_parts all) (negotiation_of version (map name_of options.now)) (map name_of options.now) out.old written.new result }
{
    let mut window = Window::new(out);
    let answer = negotiate_protocol_version_of(version, options.iter().map(bytes_in), &mut window);
    ended(answer, &window, written)
}

/// The bytes of a name.
fn bytes_in<'a>(name: &PgpName<'a>) -> &'a [u8]
    ensures { result.now ≡ name_of name.now }
{
    name.name
}
