//! The bodies of the two messages that `pgp_message` doesn't read.

ghost use Rattle.std.specs.Prelude.{◌≡◌, ◌≢◌, [], ℕ, List, Option, None, IfNone, IfSome};
ghost use Rattle.std.specs.Option.{option_map};
ghost use Rattle.pgtrace_lines.specs.PlainBody.{IsCallResult, IsCopyBoth, numbers_of};

use pgp_base::reading::{byte_at, oid_at, uint16_at};

/// The result of a function, none for a null, in the body of a FunctionCallResponse; or nothing where the body isn't one.
pub fn call_result(body: &[u8]) -> Option<Option<&[u8]>>
    ensures some { IfSome result (λ v. IsCallResult body.now (option_map (λ b. b.now) v)) }
    ensures none { IfNone result ((v : Option (List ℕ)) → ¬ IsCallResult body.now v) }
{
    let Ok((len, rest)) = oid_at(body) else {
        return None;
    };
    if len == 0xFFFF_FFFF {
        if rest.is_empty() {
            return Some(None);
        }
        return None;
    }
    if len > 0x7FFF_FFFF {
        return None;
    }
    if len as usize != rest.len() {
        return None;
    }
    Some(Some(rest))
}

/// The format in the body of a CopyBothResponse, and the bytes of its columns' formats; or nothing where the body isn't one.
pub fn copy_both(body: &[u8]) -> Option<(u8, &[u8])>
    ensures some { IfSome result (λ x. IsCopyBoth body.now x.0 (numbers_of x.1.now)) }
    ensures none { IfNone result ((format : ℕ) (formats : List ℕ) → ¬ IsCopyBoth body.now format formats) }
{
    let Ok((format, behind)) = byte_at(body) else {
        return None;
    };
    let Ok((count, rest)) = uint16_at(behind) else {
        return None;
    };
    if rest.len() == 2 * count as usize {
        return Some((format, rest));
    }
    None
}
