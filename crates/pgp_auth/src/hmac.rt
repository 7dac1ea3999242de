//! HMAC over SHA-256 (RFC 2104).

ghost use Rattle.std.specs.Prelude.{◌≡◌, ◌≤◌, ◌++◌, length, map, bit_xor};
ghost use Rattle.sha2.specs.Hashers.{Holds256};
ghost use Rattle.pgp_auth.specs.Hmac.{padded, xored_block, mac};
ghost use Rattle.pgp_auth.specs.MacBlocks.{blocks_of, code_of};

use sha2::{Digest, Sha256};
use std::marker::Model;

const BLOCK_LEN: usize = 64;

const INNER_PAD: u8 = 0x36;

const OUTER_PAD: u8 = 0x5c;

// A key of at most a block, with zeros up to the block's end, and each byte xor `pad`.
fn short_key_block(key: &[u8], pad: u8) -> [u8; BLOCK_LEN]
    requires { length key.now ≤ BLOCK_LEN }
    ensures { result ≡ map (λ byte. bit_xor byte pad) (padded key.now) }
{
    let mut block = [pad; BLOCK_LEN];
    for (i, byte) in key.iter().enumerate() {
        block[i] = *byte ^ pad;
    }
    block
}

// The digest that has absorbed a block.
fn absorbed(block: [u8; BLOCK_LEN]) -> Sha256
    ensures { Holds256 result block }
{
    let mut digest = Sha256::new();
    digest.update(block);
    digest
}

// A key, made ready once for all its codes: its two blocks, and a digest that has absorbed each.
#[derive(Drop)]
pub(crate) struct MacKey {
    inner_block: [u8; BLOCK_LEN],
    outer_block: [u8; BLOCK_LEN],
    inner: Sha256,
    outer: Sha256,
}

impl Model for MacKey {
    ghost use Rattle.sha2.specs.Hashers.{Holds256};
    ghost use Rattle.pgp_auth.specs.MacBlocks.{MacBlocks};

    ghost Value = { MacBlocks };

    ghost view = { λ key. record { inner = key.inner_block; outer = key.outer_block } };

    ghost invariant = { λ key. Holds256 key.inner key.inner_block × Holds256 key.outer key.outer_block };
}

impl MacKey {
    // A key that is longer than a block is hashed first, once for both blocks.
    pub(crate) fn new(key: &[u8]) -> MacKey
        ensures { result ≡ blocks_of key.now }
    {
        if BLOCK_LEN < key.len() {
            MacKey::of_short(&Sha256::digest(key))
        } else {
            MacKey::of_short(key)
        }
    }

    fn of_short(key: &[u8]) -> MacKey
        requires { length key.now ≤ BLOCK_LEN }
        ensures { result ≡ blocks_of key.now }
    {
        let inner_block = short_key_block(key, INNER_PAD);
        let outer_block = short_key_block(key, OUTER_PAD);
        MacKey {
            inner_block,
            outer_block,
            inner: absorbed(inner_block),
            outer: absorbed(outer_block),
        }
    }

    // The authentication code of a message that comes in two parts. For 32 bytes it takes two
    // compressions: the digests are cloned with their blocks absorbed.
    pub(crate) fn code(&self, first: &[u8], second: &[u8]) -> [u8; 32]
        ensures { result ≡ code_of self.now (first.now ++ second.now) }
    {
        let mut inner = self.inner.clone().unwrap();
        inner.update(first);
        inner.update(second);
        let mut outer = self.outer.clone().unwrap();
        outer.update(inner.finalize());
        outer.finalize()
    }
}

// The authentication code of a message that comes in two parts.
#[tactic(auto, using(crate::proofs::Codes::code_is))]
pub(crate) fn hmac_sha256(key: &[u8], first: &[u8], second: &[u8]) -> [u8; 32]
    ensures { result ≡ mac key.now (first.now ++ second.now) }
{
    MacKey::new(key).code(first, second)
}
