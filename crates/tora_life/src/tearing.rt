//! The effect of a crash on bytes that were written and not synced.
ghost use Rattle.std.specs.Prelude.{◌≡◌, ◌≤◌, length};
ghost use Rattle.tora_life.specs.TornBytes.{torn_over};

/// Replaces each byte that is marked as written by the torn byte at its offset modulo 16.
pub fn tear(torn: &[u8; 16], written: &[bool], bytes: &mut [u8])
    requires { length written.now ≤ length bytes.old }
    ensures { bytes.new ≡ torn_over 0 torn.now written.now bytes.old }
{
    for i in 0..written.len() {
        if written[i] {
            bytes[i] = torn[i % 16];
        }
    }
}
