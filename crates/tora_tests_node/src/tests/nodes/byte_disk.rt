//! A disk of whose bytes contracts say nothing.
ghost use Rattle.std.specs.Prelude.{◌≤◌};

use tora_life::{Disk, DiskError};

/// A disk of at most 80 bytes that never fails, and of whose bytes contracts say nothing. A write that does not fit
/// into 80 bytes has no effect.
#[derive(Drop)]
pub struct ByteDisk {
    bytes: [u8; 80],
    length: usize,
    ghost within: { length ≤ 80 },
}

impl ByteDisk {
    /// A disk of `length` zero bytes.
    pub fn of_zeros(length: usize) -> ByteDisk
        requires { length ≤ 80 }
    {
        ByteDisk {
            bytes: [0; 80],
            length,
        }
    }

    /// A disk of 64 bytes: two slots of zeros, and then this tag.
    pub fn of_tag(tag: &[u8; 32]) -> ByteDisk {
        let mut bytes = [0; 80];
        bytes[32..64].copy_from_slice(tag);
        ByteDisk { bytes, length: 64 }
    }

    /// The bytes 32 to 63 as four numbers, eight bytes each.
    pub fn tag(&self) -> [u64; 4] {
        let mut words = [0; 4];
        for (place, word) in words.iter_mut().enumerate() {
            for byte in &self.bytes[32 + 8 * place..40 + 8 * place] {
                *word = *word << 8 | u64::from(*byte);
            }
        }
        words
    }
}

impl Disk for ByteDisk {
    ghost use Rattle.std.specs.Prelude.{[], false};
    ghost use Rattle.std.proofs.Common.{rules};

    ghost tells = { λ d. false };

    ghost seen = { λ d. [] };

    ghost may_leave = { λ d c. ⊥ };

    ghost moment = { λ d. 0 };

    ghost left_since = { λ d t c. ⊥ };

    ghost failures = { λ d. 0 };

    ghost reads = { λ d at buf answer bytes new. Unit {0} };

    ghost writes = { λ d at bytes answer new. Unit {0} };

    ghost syncs = { λ d answer new. Unit {0} };

    ghost seen_may_stay = { Prim.search rules };

    ghost counts_now = { λ d t c le now. now };

    ghost only_now = { λ d c left. left };

    fn read(&mut self, at: usize, buf: &mut [u8]) -> Result<usize, DiskError> {
        let there = &self.bytes[..self.length];
        let Some(rest) = there.get(at..) else {
            return Ok(0);
        };
        let count = rest.len().min(buf.len());
        buf[..count].copy_from_slice(&rest[..count]);
        Ok(count)
    }

    fn write_at(&mut self, at: usize, bytes: &[u8]) -> Result<(), DiskError> {
        if at > 80 || bytes.len() > 80 - at {
            return Ok(());
        }
        let end = at + bytes.len();
        self.bytes[at..end].copy_from_slice(bytes);
        if end > self.length {
            self.length = end;
        }
        Ok(())
    }

    fn sync(&mut self) -> Result<(), DiskError> {
        Ok(())
    }
}
