//! HMAC-SHA-256 (RFC 2104, FIPS 198-1).
ghost use Rattle.std.specs.Prelude.{◌≡◌, ◌++◌, ◌≤◌, ◌-◌, ℕ, List, length, replicate, bytes_eq};
ghost use Rattle.sha2.specs.Hashers.{Holds256};
ghost use Rattle.sha2.specs.Sha256.{sha256};
ghost use Rattle.tora_key.specs.Hmac.{padded, masked, hmac_under, hmac_of, tag_of};

use sha2::{Digest, Sha256};
use std::alloc::AllocError;
use std::marker::Model;

/// The length of a block of SHA-256, in bytes.
const BLOCK: usize = 64;

/// The length of a tag in bytes: half of the digest (RFC 2104, section 5).
pub const TAG: usize = 16;

const INNER_PAD: u8 = 0x36;

const OUTER_PAD: u8 = 0x5c;

/// A key, made from bytes of any length: the block that RFC 2104 pads them to, and two hashers that have hashed this
/// block under the inner and the outer pad. Each tag starts from copies of these hashers, which saves hashing two
/// blocks. It takes no memory, and `clear` overwrites it.
#[derive(Drop)]
pub struct Key {
    block: [u8; BLOCK],
    inner: Sha256,
    outer: Sha256,
}

impl Model for Key {
    ghost use Rattle.std.specs.Prelude.{ℕ, List};
    ghost use Rattle.sha2.specs.Hashers.{Holds256};
    ghost use Rattle.tora_key.specs.Hmac.{masked};

    ghost Value = { List ℕ };

    ghost view = { λ k. k.block };

    ghost invariant = { λ k. record {
      inner : Holds256 k.inner (masked 0x36 k.block);
      outer : Holds256 k.outer (masked 0x5c k.block);
    } };
}

impl Key {
    /// The key made of these bytes. If there are more than 64, their digest is used, as the RFC says.
    #[tactic(auto, unfolding(crate::specs::Hmac::padded))]
    pub fn new(bytes: &[u8]) -> Key
        ensures { result ≡ padded bytes.now }
    {
        if bytes.len() > BLOCK {
            return Key::of(block_with(&Sha256::digest(bytes)));
        }
        Key::of(block_with(bytes))
    }

    /// The key of a padded block.
    fn of(block: [u8; BLOCK]) -> Key
        ensures { result ≡ block }
    {
        let inner = Sha256::new_with_prefix(&masked_block(&block, INNER_PAD));
        let outer = Sha256::new_with_prefix(&masked_block(&block, OUTER_PAD));
        Key {
            block,
            inner,
            outer,
        }
    }

    /// Overwrites the key with the key of no bytes, whose block is 64 zeros.
    pub fn clear(&mut self)
        ensures { self.new ≡ replicate 64 0 }
    {
        *self = Key::of([0; BLOCK]);
    }

    /// The HMAC-SHA-256 of a message.
    #[tactic(auto, unfolding(crate::specs::Hmac::hmac_under))]
    pub fn hmac(&self, message: &[u8]) -> [u8; 32]
        ensures { result ≡ hmac_under self.now message.now }
    {
        let inner = digest_behind(&self.inner, message);
        digest_behind(&self.outer, &inner)
    }

    /// The tag of a message: the first 16 bytes of its HMAC-SHA-256.
    #[tactic(auto, unfolding(crate::specs::Hmac::tag_of))]
    pub fn tag(&self, message: &[u8]) -> [u8; TAG]
        ensures { result ≡ tag_of self.now message.now }
    {
        let whole = self.hmac(message);
        let mut tag = [0; TAG];
        tag.copy_from_slice(&whole[..TAG]);
        tag
    }
}

// The block that begins with these bytes and is filled with zeros.
fn block_with(bytes: &[u8]) -> [u8; BLOCK]
    requires { length bytes.now ≤ 64 }
    ensures { result ≡ bytes.now ++ replicate (64 - length bytes.now) 0 }
{
    let mut block = [0; BLOCK];
    for i in 0..bytes.len() {
        block[i] = bytes[i];
    }
    block
}

// The digest of the bytes that a hasher has taken and of the message after them.
fn digest_behind(hasher: &Sha256, message: &[u8]) -> [u8; 32]
    ensures { (front : List ℕ) → Holds256 hasher.now front → result ≡ sha256 (front ++ message.now) }
{
    let copy: Result<Sha256, AllocError> = hasher.clone();
    let Ok(mut hasher) = copy else { unreachable!() };
    hasher.update(message);
    hasher.finalize()
}

/// The exclusive or of each byte of the block and `pad`.
fn masked_block(block: &[u8; BLOCK], pad: u8) -> [u8; BLOCK]
    ensures { result ≡ masked pad block.now }
{
    let mut out = [0; BLOCK];
    for i in 0..BLOCK {
        out[i] = block[i] ^ pad;
    }
    out
}

/// The HMAC-SHA-256 of a message under a key of any length.
pub fn hmac(key: &[u8], message: &[u8]) -> [u8; 32]
    ensures { result ≡ hmac_of key.now message.now }
{
    Key::new(key).hmac(message)
}

/// Whether two tags of 16 bytes each are equal. It reads all bytes of both, wherever the first difference is.
pub fn is_same(a: &[u8], b: &[u8]) -> bool
    requires a { length a.now ≡ TAG }
    requires b { length b.now ≡ TAG }
    ensures { result ≡ bytes_eq a.now b.now }
{
    let mut differing: u8 = 0;
    for i in 0..TAG {
        differing |= a[i] ^ b[i];
    }
    differing == 0
}
