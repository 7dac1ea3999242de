//! What a server says before the first query is due: requests for authentication, the key of a cancel request, the version.

ghost use Rattle.std.specs.Prelude.{pos, length, map, [], ◌∷◌, Some, None};
ghost use Rattle.std.specs.Iterator.{IsFiniteIterable};
ghost use Rattle.std.specs.List.{flat_map};
ghost use Rattle.pgp_base.specs.Calls.{Yielded};
ghost use Rattle.pgp_base.specs.Cause.{length_cause};
ghost use Rattle.pgp_base.specs.Wire.{int32};
ghost use Rattle.pgp_frontend.specs.Payload.{Byte, Int32, Rest, WritesFrame};
ghost use Rattle.pgp_message.specs.BackendMessage.{Authentication, AuthenticationOk, AuthenticationKerberosV5, AuthenticationCleartextPassword, AuthenticationMd5Password, AuthenticationScmCredential, AuthenticationGss, AuthenticationGssContinue, AuthenticationSspi, AuthenticationSasl, AuthenticationSaslContinue, AuthenticationSaslFinal, BackendKeyData};
ghost use Rattle.pgp_message_write.specs.Given.{uncounted, WritesGiven};
ghost use Rattle.pgp_message_write.specs.Lists.{marked_list, text_parts, wide_list, with_list};
ghost use Rattle.pgp_message_write.specs.Reply.{names_of, negotiation_of, WritesList, WritesReply};

use crate::list_message::{list_message, wide_count};
use crate::list_message_of::{Ending, list_message_of};
use pgp_base::{Buffer, Error};
use pgp_frontend::field::{Field, message};

/// Appends a request for authentication: its code, and what stands after it.
fn request<B: Buffer>(code: i32, details: &[u8], buf: &mut B) -> Result<(), Error>
    ensures { WritesFrame (Some 82) (Int32 code ∷ Rest details.now ∷ []) B.Lacks (B.held buf.old) (B.held buf.new) result }
{
    message(b'R', &[Field::Int32(code), Field::Rest(details)], buf)
}

/// AuthenticationOk: authentication succeeded.
///
/// # Errors
///
/// Returns `OutOfMemory` if the buffer can't grow. On error the buffer is unchanged.
pub fn authentication_ok<B: Buffer>(buf: &mut B) -> Result<(), Error>
    ensures { WritesReply (Authentication AuthenticationOk) B.Lacks (B.held buf.old) (B.held buf.new) result }
{
    request(0, &[], buf)
}

/// AuthenticationKerberosV5: requires Kerberos V5.
///
/// # Errors
///
/// Returns `OutOfMemory` if the buffer can't grow. On error the buffer is unchanged.
pub fn authentication_kerberos_v5<B: Buffer>(buf: &mut B) -> Result<(), Error>
    ensures { WritesReply (Authentication AuthenticationKerberosV5) B.Lacks (B.held buf.old) (B.held buf.new) result }
{
    request(2, &[], buf)
}

/// AuthenticationCleartextPassword: requires a clear-text password.
///
/// # Errors
///
/// Returns `OutOfMemory` if the buffer can't grow. On error the buffer is unchanged.
pub fn authentication_cleartext_password<B: Buffer>(buf: &mut B) -> Result<(), Error>
    ensures { WritesReply (Authentication AuthenticationCleartextPassword) B.Lacks (B.held buf.old) (B.held buf.new) result }
{
    request(3, &[], buf)
}

/// AuthenticationSCMCredential: requires an SCM credentials message.
///
/// # Errors
///
/// Returns `OutOfMemory` if the buffer can't grow. On error the buffer is unchanged.
pub fn authentication_scm_credential<B: Buffer>(buf: &mut B) -> Result<(), Error>
    ensures { WritesReply (Authentication AuthenticationScmCredential) B.Lacks (B.held buf.old) (B.held buf.new) result }
{
    request(6, &[], buf)
}

/// AuthenticationGSS: requires GSSAPI.
///
/// # Errors
///
/// Returns `OutOfMemory` if the buffer can't grow. On error the buffer is unchanged.
pub fn authentication_gss<B: Buffer>(buf: &mut B) -> Result<(), Error>
    ensures { WritesReply (Authentication AuthenticationGss) B.Lacks (B.held buf.old) (B.held buf.new) result }
{
    request(7, &[], buf)
}

/// AuthenticationSSPI: requires SSPI.
///
/// # Errors
///
/// Returns `OutOfMemory` if the buffer can't grow. On error the buffer is unchanged.
pub fn authentication_sspi<B: Buffer>(buf: &mut B) -> Result<(), Error>
    ensures { WritesReply (Authentication AuthenticationSspi) B.Lacks (B.held buf.old) (B.held buf.new) result }
{
    request(9, &[], buf)
}

/// AuthenticationMD5Password: requires an MD5 password with this salt.
///
/// # Errors
///
/// Returns `OutOfMemory` if the buffer can't grow. On error the buffer is unchanged.
pub fn authentication_md5_password<B: Buffer>(salt: [u8; 4], buf: &mut B) -> Result<(), Error>
    ensures { WritesReply (Authentication (AuthenticationMd5Password salt)) B.Lacks (B.held buf.old) (B.held buf.new) result }
{
    request(5, &salt, buf)
}

/// AuthenticationGSSContinue: data of a GSSAPI or SSPI exchange.
///
/// # Errors
///
/// Returns `TooLarge` if the message exceeds `i32::MAX`, and `OutOfMemory` if the buffer can't grow. On error the buffer
/// is unchanged.
pub fn authentication_gss_continue<B: Buffer>(data: &[u8], buf: &mut B) -> Result<(), Error>
    ensures { WritesReply (Authentication (AuthenticationGssContinue «data».now)) B.Lacks (B.held buf.old) (B.held buf.new) result }
{
    request(8, data, buf)
}

/// AuthenticationSASLContinue: a SASL challenge, as the server's first SCRAM message.
///
/// # Errors
///
/// Returns `TooLarge` if the message exceeds `i32::MAX`, and `OutOfMemory` if the buffer can't grow. On error the buffer
/// is unchanged.
pub fn authentication_sasl_continue<B: Buffer>(data: &[u8], buf: &mut B) -> Result<(), Error>
    ensures { WritesReply (Authentication (AuthenticationSaslContinue «data».now)) B.Lacks (B.held buf.old) (B.held buf.new) result }
{
    request(11, data, buf)
}

/// AuthenticationSASLFinal: the outcome of a SASL exchange, as the server's final SCRAM message.
///
/// # Errors
///
/// Returns `TooLarge` if the message exceeds `i32::MAX`, and `OutOfMemory` if the buffer can't grow. On error the buffer
/// is unchanged.
pub fn authentication_sasl_final<B: Buffer>(data: &[u8], buf: &mut B) -> Result<(), Error>
    ensures { WritesReply (Authentication (AuthenticationSaslFinal «data».now)) B.Lacks (B.held buf.old) (B.held buf.new) result }
{
    request(12, data, buf)
}

/// Offers these SASL mechanisms, the one that the server likes best first. A name without a letter would end the list where it is read.
///
/// # Errors
///
/// Returns `EmbeddedNull` if a name has a 0 byte, `TooLarge` if the message exceeds `i32::MAX`, and `OutOfMemory` if the buffer can't
/// grow. On error the buffer is unchanged.
pub fn authentication_sasl<B: Buffer>(mechanisms: &[&[u8]], buf: &mut B) -> Result<(), Error>
    ensures { let names = map (λ name. name.now) mechanisms.now in WritesList (Authentication (AuthenticationSasl (names_of names))) None
        (with_list (Int32 (pos 10) ∷ []) (flat_map text_parts names) (Byte 0 ∷ []))
        B.Lacks (B.held buf.old) (B.held buf.new) result }
{
    list_message(
        b'R',
        &[Field::Int32(10)],
        mechanisms,
        &[Field::Byte(0)],
        buf,
    )
}

/// The same, over an iterator of names.
///
/// # Errors
///
/// Returns `EmbeddedNull` at the first name with a 0 byte, and `TooLarge` if the message exceeds `i32::MAX`. Otherwise
/// `OutOfMemory`, which may come before any of them, if the buffer can't grow. On error the buffer is unchanged.
pub fn authentication_sasl_of<'a, B: Buffer, I: IntoIterator<Item = &'a [u8]> + Drop>(
    mechanisms: I,
    buf: &mut B,
) -> Result<(), Error>
where
    I::IntoIter: Drop,
    requires { IsFiniteIterable I.into_iter_gives I.IntoIter.can_next I.IntoIter.remaining mechanisms }
    ensures { WritesGiven (Yielded I.into_iter_gives I.IntoIter.next_gives mechanisms) uncounted
        (λ all. Int32 (pos 10) ∷ marked_list text_parts (map (λ name. name.now) all))
        (λ all. Authentication (AuthenticationSasl (names_of (map (λ name. name.now) all))))
        B.Lacks (B.held buf.old) (B.held buf.new) result }
{
    list_message_of(b'R', &[Field::Int32(10)], Ending::Zero, mechanisms, buf)
}

/// What a request to cancel has to show: the process, and a key of 4 to 256 bytes, by this project's profile of protocol 3.2.
///
/// # Errors
///
/// Returns `InvalidSize` unless the key has 4 to 256 bytes, and `OutOfMemory` if the buffer can't grow. On error the buffer
/// is unchanged.
pub fn backend_key_data<B: Buffer>(
    process_id: i32,
    secret_key: &[u8],
    buf: &mut B,
) -> Result<(), Error>
    ensures { WritesReply (BackendKeyData (record { process_id = process_id; secret_key = secret_key.now })) B.Lacks (B.held buf.old) (B.held buf.new) result }
{
    message(
        b'K',
        &[Field::Int32(process_id), Field::Key(secret_key)],
        buf,
    )
}

/// The newest version of the protocol that the server speaks, and the options of the startup packet that it doesn't know; by
/// this project's profile of protocol 3.2.
///
/// # Errors
///
/// Returns `TooLarge` if there are more options than the greatest `i32` or the message passes it, `EmbeddedNull` if one has a 0 byte,
/// and `OutOfMemory` if the buffer can't grow. On error the buffer is unchanged.
pub fn negotiate_protocol_version<B: Buffer>(
    version: i32,
    options: &[&[u8]],
    buf: &mut B,
) -> Result<(), Error>
    ensures { let texts = map (λ text. text.now) options.now in WritesList (negotiation_of version texts) (length_cause (length texts))
        (with_list (Int32 version ∷ Rest (int32 (pos (length texts))) ∷ []) (flat_map text_parts texts) [])
        B.Lacks (B.held buf.old) (B.held buf.new) result }
{
    let count = wide_count(options.len())?;
    let head = [Field::Int32(version), Field::Rest(&count)];
    list_message(b'v', &head, options, &[], buf)
}

/// The same, over an iterator of options.
///
/// # Errors
///
/// The first from the left of: `EmbeddedNull` if an option has a 0 byte, `TooLarge` at the option past 2,147,483,647, which is
/// not written, and `TooLarge` if the message exceeds `i32::MAX`. Otherwise `OutOfMemory`, which may come before any of them, if
/// the buffer can't grow. On error the buffer is unchanged.
pub fn negotiate_protocol_version_of<'a, B: Buffer, I: IntoIterator<Item = &'a [u8]> + Drop>(
    version: i32,
    options: I,
    buf: &mut B,
) -> Result<(), Error>
where
    I::IntoIter: Drop,
    requires { IsFiniteIterable I.into_iter_gives I.IntoIter.can_next I.IntoIter.remaining options }
    ensures { WritesGiven (Yielded I.into_iter_gives I.IntoIter.next_gives options) length_cause
        (λ all. Int32 version ∷ wide_list text_parts (map (λ text. text.now) all))
        (λ all. negotiation_of version (map (λ text. text.now) all))
        B.Lacks (B.held buf.old) (B.held buf.new) result }
{
    list_message_of(
        b'v',
        &[Field::Int32(version)],
        Ending::WideCount,
        options,
        buf,
    )
}
