//! The client of SCRAM-SHA-256, which keeps what the server's final text has to show, so that the key is made once.

ghost use Rattle.std.specs.Prelude.{◌≡◌, ◌≢◌, ◌⊎◌, []};
ghost use Rattle.pgp_auth.specs.ScramRefusal.{Verifies};
ghost use Rattle.for_c_auth.specs.Delivering.{Delivers, IsLonger, NotDelivered};
ghost use Rattle.for_c_auth.specs.Scram.{start, AnswersWith, BeginRefused, FirstText, NotAnswered, NoRoom, ShownRefused};

use crate::client::{answered, begun, hand_over, stopped};
use pgp_auth::authentication::sasl::verify_signature;
use pgp_base::Memory;
use std::alloc::Global;

/// What is kept between the server's two texts: the signature that the second has to show.
#[repr(C)]
#[derive(Clone, Copy)]
pub struct PgpScram {
    pub signature: [u8; 32],
}

/// The first text of an exchange with this nonce.
#[unsafe(no_mangle)]
pub extern "C" fn pgp_scram_first(
    alloc: Global,
    kind: u8,
    certificate: &[u8],
    nonce: &[u8],
    out: &mut [u8],
    written: &mut usize,
) -> u32
    ensures sent { result ≡ 0 → Delivers (FirstText (start [] kind certificate.now nonce.now)) out.old out.new written.new }
    ensures refused { result ≢ 0 → NotDelivered out.old out.new written.new }
    ensures why { result ≢ 0 → BeginRefused (Unit {0}) (start [] kind certificate.now nonce.now) result ⊎ ((result ≡ 1) × IsLonger (FirstText (start [] kind certificate.now nonce.now)) out.old) }
{
    first(alloc, kind, certificate, nonce, out, written)
}

/// `pgp_scram_first` with any allocator.
pub fn first<A: Memory>(
    alloc: A,
    kind: u8,
    certificate: &[u8],
    nonce: &[u8],
    out: &mut [u8],
    written: &mut usize,
) -> u32
    ensures sent { result ≡ 0 → Delivers (FirstText (start [] kind certificate.now nonce.now)) out.old out.new written.new }
    ensures refused { result ≢ 0 → NotDelivered out.old out.new written.new }
    ensures why { result ≢ 0 → BeginRefused A.Lacks (start [] kind certificate.now nonce.now) result ⊎ ((result ≡ 1) × IsLonger (FirstText (start [] kind certificate.now nonce.now)) out.old) }
{
    *written = 0;
    match begun(alloc, &[], kind, certificate, nonce) {
        Ok(client) => hand_over(&client, out, written),
        Err(code) => code,
    }
}

/// The final text: the answer to the server's first, and the signature that is awaited. `at` is the place in the server's text that an error says.
#[unsafe(no_mangle)]
pub extern "C" fn pgp_scram_update(
    alloc: Global,
    password: &[u8],
    kind: u8,
    certificate: &[u8],
    nonce: &[u8],
    server_first: &[u8],
    out: &mut [u8],
    written: &mut usize,
    at: &mut usize,
    kept: &mut PgpScram,
) -> u32
    ensures sent { result ≡ 0 → Delivers (AnswersWith (start password.now kind certificate.now nonce.now) server_first.now kept.new.signature) out.old out.new written.new }
    ensures no_place { result ≡ 0 → at.new ≡ 0 }
    ensures refused { result ≢ 0 → NotDelivered out.old out.new written.new × (kept.new ≡ kept.old) }
    ensures why { result ≢ 0 → NotAnswered (Unit {0}) (start password.now kind certificate.now nonce.now) server_first.now result at.new ⊎ NoRoom (start password.now kind certificate.now nonce.now) server_first.now out.old result at.new }
{
    updated(
        alloc,
        password,
        kind,
        certificate,
        nonce,
        server_first,
        out,
        written,
        at,
        kept,
    )
}

/// `pgp_scram_update` with any allocator.
pub fn updated<A: Memory>(
    alloc: A,
    password: &[u8],
    kind: u8,
    certificate: &[u8],
    nonce: &[u8],
    server_first: &[u8],
    out: &mut [u8],
    written: &mut usize,
    at: &mut usize,
    kept: &mut PgpScram,
) -> u32
    ensures sent { result ≡ 0 → Delivers (AnswersWith (start password.now kind certificate.now nonce.now) server_first.now kept.new.signature) out.old out.new written.new }
    ensures no_place { result ≡ 0 → at.new ≡ 0 }
    ensures refused { result ≢ 0 → NotDelivered out.old out.new written.new × (kept.new ≡ kept.old) }
    ensures why { result ≢ 0 → NotAnswered A.Lacks (start password.now kind certificate.now nonce.now) server_first.now result at.new ⊎ NoRoom (start password.now kind certificate.now nonce.now) server_first.now out.old result at.new }
{
    *written = 0;
    let client = match answered(alloc, password, kind, certificate, nonce, server_first, at) {
        Ok(client) => client,
        Err(code) => return code,
    };
    let Some(signature) = client.signature() else {
        unreachable!()
    };
    let code = hand_over(&client, out, written);
    if code == 0 {
        *kept = PgpScram { signature };
    }
    code
}

/// Whether the server's final text shows the signature that is awaited: 0 where it does. `at` is the place in it that an error says.
#[unsafe(no_mangle)]
pub extern "C" fn pgp_scram_finish(
    alloc: Global,
    kept: &PgpScram,
    server_final: &[u8],
    at: &mut usize,
) -> u32
    ensures verified { result ≡ 0 → Verifies kept.now.signature server_final.now × (at.new ≡ 0) }
    ensures why { result ≢ 0 → ShownRefused (Unit {0}) kept.now.signature server_final.now result at.new }
{
    finished(alloc, kept, server_final, at)
}

/// `pgp_scram_finish` with any allocator.
pub fn finished<A: Memory>(alloc: A, kept: &PgpScram, server_final: &[u8], at: &mut usize) -> u32
    ensures verified { result ≡ 0 → Verifies kept.now.signature server_final.now × (at.new ≡ 0) }
    ensures why { result ≢ 0 → ShownRefused A.Lacks kept.now.signature server_final.now result at.new }
{
    *at = 0;
    match verify_signature(alloc, &kept.signature, server_final) {
        Ok(()) => 0,
        Err(e) => stopped(e, at),
    }
}
