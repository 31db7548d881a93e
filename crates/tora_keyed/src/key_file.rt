//! Files with keys.
ghost use Rattle.std.specs.Prelude.{◌≡◌, length, replicate, Some, None, MatchResult};
ghost use Rattle.hex.specs.Hex.{decode_sized};
ghost use Rattle.tora_key.specs.Hmac.{padded};
ghost use Rattle.tora_keyed.specs.KeyFile.{digits_in};

use tora_key::Key;

/// The length of a key in bytes.
pub const KEY: usize = 32;

/// The length in bytes of the longest key file: two digits for each byte of the key, and a line feed.
pub const LONGEST_KEY_FILE: usize = 2 * KEY + 1;

// The bytes without the last one, if that is a line feed.
fn digits_in(bytes: &[u8]) -> &[u8]
    ensures { result.now ≡ digits_in bytes.now }
{
    let count = bytes.len();
    if count > 0 && bytes[count - 1] == b'\n' {
        &bytes[..count - 1]
    } else {
        bytes
    }
}

/// The key in the bytes of a key file: 64 hexadecimal digits, optionally followed by a line feed. `None` for any other
/// bytes. The decoded bytes are overwritten with zeros. The caller overwrites `bytes`.
pub fn key_in(bytes: &[u8]) -> Option<Key>
    ensures { MatchResult (decode_sized (digits_in bytes.now) 32) (λ key. result ≡ Some (padded key))
        (λ _. result ≡ None) }
{
    let mut room = [0; KEY];
    let key = match hex::decode_to_slice(digits_in(bytes), &mut room) {
        Ok(()) => Some(Key::new(&room)),
        Err(_) => None,
    };
    overwrite(&mut room);
    key
}

/// Writes zeros over bytes that held a key or its digits.
pub fn overwrite(bytes: &mut [u8])
    ensures { bytes.new ≡ replicate (length bytes.old) 0 }
{
    bytes.fill(0);
}
