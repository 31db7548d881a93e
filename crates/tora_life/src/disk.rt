//! A file on a disk: what a read returns, and what a crash may leave.
ghost use Rattle.std.specs.Prelude.{◌≡◌, ◌≤◌, ℕ, Bool, List, length, Result, IfOk, OnOk, OnErr, IsTrue};
ghost use Rattle.tora_life.specs.declared.disk.DiskError.{DiskError};
ghost use Rattle.tora_life.specs.Disk.{Holds, Torn, Follows, IsOnlyImage, Elapses, failures_after, IsRead};

use thiserror::Error;

/// A call of a disk failed. The disk has counted it.
#[derive(Clone, Copy, Debug, PartialEq, Eq, Hash, Error)]
#[error("a call of the disk failed")]
pub struct DiskError;

/// One file on a disk, as bytes from offset 0 on, which nobody else writes.
///
/// A disk may make its bytes visible to contracts, as `MemDisk` does and `FileDisk` does not. Contracts then know what
/// a read returns, and which files a crash may leave (the images): between two syncs each written range may hold any
/// bytes, and may be cut anywhere past the old end of the file; all other bytes stay. After a successful sync the only
/// image is what a read returns. A failed call may have had its whole effect, a part of it, or none.
///
/// A crash may come at any moment, also inside a call. `left_since` describes the files that a crash at some moment
/// since an earlier moment may have left.
///
/// Each disk counts its failed calls. The count stops at 2^64 - 1.
pub trait Disk {
    /// Whether contracts see the bytes.
    ghost tells: { Self → Bool };

    /// The bytes that a read returns.
    ghost seen: { Self → List ℕ };

    /// The images: the files that a crash at this moment may leave.
    ghost may_leave: { Self → List ℕ → Type 0 };

    /// The present moment, as a number: a call never makes it smaller.
    ghost moment: { Self → ℕ };

    /// The files that a crash at some moment since the given one may have left, during a call or between two calls.
    ghost left_since: { Self → ℕ → List ℕ → Type 0 };

    /// How many calls have failed; the count stops at 2^64 - 1.
    ghost failures: { Self → ℕ };

    /// Whether a read may do this: old disk, offset, old buffer, result, new buffer, new disk.
    ghost reads: { Self → ℕ → List ℕ → Result ℕ DiskError → List ℕ → Self → Type 0 };

    /// Whether a write may do this: old disk, offset, bytes, result, new disk.
    ghost writes: { Self → ℕ → List ℕ → Result (Unit {0}) DiskError → Self → Type 0 };

    /// Whether a sync may do this: old disk, result, new disk.
    ghost syncs: { Self → Result (Unit {0}) DiskError → Self → Type 0 };

    /// Reads from the offset `at` on into the front of `buf`, as many bytes as there are and fit. Returns their count,
    /// which is 0 at or past the end of the file. The rest of `buf` is unchanged. After `DiskError`, `buf` may hold any
    /// bytes.
    fn read(&mut self, at: usize, buf: &mut [u8]) -> Result<usize, DiskError>
        ensures call { reads self.old at buf.old result buf.new self.new }
        ensures failures { failures self.new ≡ failures_after result (failures self.old) }
        ensures tells { tells self.new ≡ tells self.old }
        ensures count { IfOk result (λ n. n ≤ length buf.old) }
        ensures bytes { IsTrue (tells self.old) → IfOk result (λ n. IsRead (seen self.old) at buf.old n buf.new) }
        ensures seen { IsTrue (tells self.old) → seen self.new ≡ seen self.old }
        ensures crash { IsTrue (tells self.old) → (c : List ℕ) → may_leave self.new c → may_leave self.old c }
        ensures time { IsTrue (tells self.old)
            → Elapses (moment self.old) (moment self.new) (left_since self.old) (left_since self.new)
            (may_leave self.new) };

    /// Writes `bytes` from the offset `at` on, replacing old bytes and extending the file if necessary. `at` must not
    /// be beyond the end of the file. Until a sync, a crash may leave any bytes in that range, even if the write
    /// failed.
    fn write_at(&mut self, at: usize, bytes: &[u8]) -> Result<(), DiskError>
        requires { IsTrue (tells self.old) → at ≤ length (seen self.old) }
        ensures call { writes self.old at bytes.now result self.new }
        ensures failures { failures self.new ≡ failures_after result (failures self.old) }
        ensures tells { tells self.new ≡ tells self.old }
        ensures written { IsTrue (tells self.old) → OnOk result (Holds (seen self.old) at bytes.now (seen self.new)) }
        ensures err { IsTrue (tells self.old)
            → OnErr result (Torn at (length bytes.now) (seen self.old) (seen self.new)) }
        ensures crash { IsTrue (tells self.old)
            → Follows (Torn at (length bytes.now)) (may_leave self.old) (may_leave self.new) }
        ensures time { IsTrue (tells self.old)
            → Elapses (moment self.old) (moment self.new) (left_since self.old) (left_since self.new)
            (may_leave self.new) };

    /// Makes all written bytes durable: after `Ok` a crash leaves what a read returns. After `DiskError` a crash leaves
    /// one of the files that it could leave before the call.
    fn sync(&mut self) -> Result<(), DiskError>
        ensures call { syncs self.old result self.new }
        ensures failures { failures self.new ≡ failures_after result (failures self.old) }
        ensures tells { tells self.new ≡ tells self.old }
        ensures durable { IsTrue (tells self.old) → OnOk result (IsOnlyImage (seen self.old) (may_leave self.new)) }
        ensures seen { IsTrue (tells self.old) → seen self.new ≡ seen self.old }
        ensures crash { IsTrue (tells self.old) → (c : List ℕ) → may_leave self.new c → may_leave self.old c }
        ensures time { IsTrue (tells self.old)
            → Elapses (moment self.old) (moment self.new) (left_since self.old) (left_since self.new)
            (may_leave self.new) };

    /// What a read returns is one of the images.
    ghost seen_may_stay: { (disk : Self) → IsTrue (tells disk) → may_leave disk (seen disk) };

    /// A crash since any earlier moment may have left every file that a crash may leave now.
    ghost counts_now: { (disk : Self) (t : ℕ) (c : List ℕ) → t ≤ moment disk → may_leave disk c → left_since disk t c };

    /// A crash may leave now every file that a crash since the present moment may have left.
    ghost only_now: { (disk : Self) (c : List ℕ) → left_since disk (moment disk) c → may_leave disk c };
}
