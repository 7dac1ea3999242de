//! A server's messages with lists of numbers, each at the front of memory of the caller's.

ghost use Rattle.std.specs.Prelude.{◌≡◌, ◌≢◌, Some};
ghost use Rattle.pgp_message.specs.BackendMessage.{CopyInResponse, CopyOutResponse};
ghost use Rattle.pgp_message_write.specs.Reply.{bytes_of, formats_of, types_of};
ghost use Rattle.for_c.specs.Replies.{formats_cause, types_cause};
ghost use Rattle.for_c.specs.Replying.{NotSentAs, SentAs};

use crate::status::ended;
use pgp_base::Window;
use pgp_message_write as writers;

/// The types of a statement's parameters.
#[unsafe(no_mangle)]
pub extern "C" fn pgp_reply_parameter_description(
    types: &[u32],
    out: &mut [u8],
    written: &mut usize,
) -> u32
    ensures sent { result ≡ 0 → SentAs (bytes_of (types_of types.now)) (types_cause types.now) out.old out.new written.new }
    ensures refused { result ≢ 0 → NotSentAs (bytes_of (types_of types.now)) (λ e. types_cause types.now ≡ Some e) out.old written.new result }
{
    let mut window = Window::new(out);
    let answer = writers::parameter_description(types, &mut window);
    ended(answer, &window, written)
}

/// The server awaits the data of a copy. The format is 0 for text and 1 for binary, as a whole and of each column.
#[unsafe(no_mangle)]
pub extern "C" fn pgp_reply_copy_in(
    format: u8,
    column_formats: &[u16],
    out: &mut [u8],
    written: &mut usize,
) -> u32
    ensures sent { result ≡ 0 → SentAs (bytes_of (CopyInResponse (formats_of format column_formats.now))) (formats_cause format column_formats.now) out.old out.new written.new }
    ensures refused { result ≢ 0 → NotSentAs (bytes_of (CopyInResponse (formats_of format column_formats.now))) (λ e. formats_cause format column_formats.now ≡ Some e) out.old written.new result }
{
    let mut window = Window::new(out);
    let answer = writers::copy_in_response(format, column_formats, &mut window);
    ended(answer, &window, written)
}

/// The server is about to send the data of a copy, in these formats.
#[unsafe(no_mangle)]
pub extern "C" fn pgp_reply_copy_out(
    format: u8,
    column_formats: &[u16],
    out: &mut [u8],
    written: &mut usize,
) -> u32
    ensures sent { result ≡ 0 → SentAs (bytes_of (CopyOutResponse (formats_of format column_formats.now))) (formats_cause format column_formats.now) out.old out.new written.new }
    ensures refused { result ≢ 0 → NotSentAs (bytes_of (CopyOutResponse (formats_of format column_formats.now))) (λ e. formats_cause format column_formats.now ≡ Some e) out.old written.new result }
{
    let mut window = Window::new(out);
    let answer = writers::copy_out_response(format, column_formats, &mut window);
    ended(answer, &window, written)
}
