//! The startup packet.

ghost use Rattle.std.specs.Prelude.{◌≡◌, ◌≢◌, ◌⊎◌, List, map, true, false};
ghost use Rattle.std.specs.List.{list_all};
ghost use Rattle.pgp_frontend.specs.ClientMessage.{Startup};
ghost use Rattle.pgp_frontend.specs.Payload.{minor_of, version_code};
ghost use Rattle.pgp_frontend.specs.declared.startup.ProtocolVersion.{ProtocolVersion as Version};
ghost use Rattle.for_c.specs.Sending.{Sent};
ghost use Rattle.for_c.specs.Opening.{is_named, pair_of, WhyPairs, WhyStartup};

use crate::status::{nameless, no_version, refused, sent};
use pgp_base::Window;
use pgp_frontend::{ProtocolVersion, over_bytes};

/// A name and a value of a startup packet.
#[repr(C)]
#[derive(Clone, Copy)]
pub struct PgpPair<'a> {
    pub name: &'a [u8],
    pub value: &'a [u8],
}

/// Opens a session of this version with these names and values.
#[unsafe(no_mangle)]
pub extern "C" fn pgp_startup(
    version: i32,
    parameters: &[PgpPair<'_>],
    out: &mut [u8],
    written: &mut usize,
) -> u32
    ensures sent { result ≡ 0 → (v : Version) × (version_code v ≡ version) × Sent (Startup (minor_of v) (map pair_of parameters.now)) out.old out.new written.new }
    ensures named { result ≡ 0 → list_all is_named parameters.now ≡ true }
    ensures refused { result ≢ 0 → (written.new ≡ 0) × WhyStartup version parameters.now out.old result }
{
    match version {
        196_608 => open(ProtocolVersion::V3_0, parameters, out, written),
        196_610 => open(ProtocolVersion::V3_2, parameters, out, written),
        _ => no_version(written),
    }
}

/// The packet of a version that is known.
fn open(
    version: ProtocolVersion,
    parameters: &[PgpPair<'_>],
    out: &mut [u8],
    written: &mut usize,
) -> u32
    ensures sent { result ≡ 0 → Sent (Startup (minor_of version) (map pair_of parameters.now)) out.old out.new written.new }
    ensures named { result ≡ 0 → list_all is_named parameters.now ≡ true }
    ensures refused { result ≢ 0 → (written.new ≡ 0) × WhyPairs version parameters.now out.old result }
{
    if !are_named(parameters) {
        return nameless(written);
    }
    let mut window = Window::new(out);
    let pairs = parameters.iter().map(texts);
    match over_bytes::startup_message_version(version, pairs, &mut window) {
        Ok(()) => sent(&window, written),
        Err(e) => refused(e, written),
    }
}

/// No name is empty.
fn are_named(parameters: &[PgpPair<'_>]) -> bool
    ensures { result ≡ list_all is_named parameters.now }
{
    for pair in parameters {
        if pair.name.is_empty() {
            return false;
        }
    }
    true
}

/// The name and the value.
fn texts<'a>(pair: &PgpPair<'a>) -> (&'a [u8], &'a [u8])
    ensures name { result.0.now ≡ pair.now.name.now }
    ensures value { result.1.now ≡ pair.now.value.now }
{
    (pair.name, pair.value)
}
