//! Bytes into the buffer of a caller.
ghost use Rattle.std.specs.Prelude.{◌≡◌, length};
ghost use Rattle.tora_c.specs.Readers.{room_code, written};

use crate::codes::{OK, ROOM};

/// Writes `bytes` to the front of `buffer`, and their count to `len`, and returns `OK`. `ROOM` if `buffer` is shorter
/// than `bytes`; then only the count is written.
pub fn write(bytes: &[u8], buffer: &mut [u8], len: &mut usize) -> u32
    ensures code { result ≡ room_code bytes.now buffer.old }
    ensures buffer { buffer.new ≡ written bytes.now buffer.old }
    ensures len { len.new ≡ length bytes.now }
{
    *len = bytes.len();
    if buffer.len() < bytes.len() {
        return ROOM;
    }
    buffer[..bytes.len()].copy_from_slice(bytes);
    OK
}
