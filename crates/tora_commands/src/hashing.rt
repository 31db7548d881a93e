//! A reader that computes the digest of what is read.
ghost use Rattle.std.specs.Prelude.{◌≡◌};

use sha2::{Digest, Sha256};
use std::alloc::{AllocError, Global};
use std::io;
use tora_lines::Input;

/// A reader that passes on what another reader gives, and computes the SHA-256 of all that was read.
#[derive(Drop)]
pub struct Hashing<R> {
    pub reader: R,
    hash: Sha256,
}

impl<R> Hashing<R> {
    /// A reader from which nothing was read yet.
    pub fn new(reader: R) -> Hashing<R>
        ensures { result.reader ≡ reader }
    {
        Hashing {
            reader,
            hash: Sha256::new(),
        }
    }

    /// The SHA-256 of all that was read, as 64 hexadecimal digits.
    pub fn digest(self, alloc: Global) -> Result<String, AllocError>
    where
        R: Drop,
    {
        hex::encode(alloc, self.hash.finalize())
    }
}

/// The SHA-256 of bytes, as 64 hexadecimal digits.
pub fn digest(alloc: Global, bytes: &[u8]) -> Result<String, AllocError> {
    let mut hash = Sha256::new();
    hash.update(bytes);
    hex::encode(alloc, hash.finalize())
}

impl<R: Input> Input for Hashing<R> {
    ghost remaining = { λ r. R.remaining r.reader };

    ghost did_read = { λ old given new. R.did_read old.reader given new.reader };

    fn get_some(&mut self, buf: &mut [u8]) -> io::Result<usize> {
        let n = self.reader.get_some(buf)?;
        if let Some(given) = buf.get(..n) {
            self.hash.update(given);
        }
        Ok(n)
    }
}
