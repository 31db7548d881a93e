//! The lengths of a life file and of its parts, in bytes.

/// The length of a slot in bytes: a bound of 8 bytes, and then its complement of 8 bytes.
pub const SLOT_LENGTH: usize = 16;

/// The length of both slots in bytes. The tag begins at this offset.
pub const SLOTS_LENGTH: usize = 32;

/// The length of a whole life file in bytes: two slots and a tag of 32 bytes.
pub const FILE_LENGTH: usize = 64;

/// How many bytes are read when a file is opened: one more than a whole file has, so that a longer file is found.
pub const FIRST_READ: usize = 65;

/// The greatest length of a file on a `MemDisk`, in bytes.
pub const DISK_LENGTH: usize = 80;
