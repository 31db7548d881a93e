//! Session numbers (life numbers) that rise across crashes.
//!
//! Each end of a link has its own life file. To draw a number is to take the next one: it is greater than every number
//! drawn before, also after a crash at any moment that tears any unsynced bytes. The file stores a bound, and no number
//! above the bound is drawn before a greater bound is on the disk. Numbers are reserved 16 at a time, so 15 of 16 draws
//! make no call of the disk.
//!
//! `LifeFile` is generic over `Disk`, whose clauses say what a read returns and what a crash may leave at each moment.
//! `MemDisk` makes its bytes visible to contracts, so all clauses apply to it, and tests can tear its bytes. `FileDisk`
//! is a file of the operating system: contracts see only which system calls it makes (`SystemFile`, `SystemFiles`).
//! That a real disk keeps what was synced is a premise of the program.
//!
//! No call takes memory.
//!
//! ```rust
//! // The file of node 1 for its link to node 2.
//! let mut file = LifeFile::open(MemDisk::new(), 1, 2)?;
//! assert_eq!(rt; file.draw(), Ok(1));
//! let mut disk = file.close();
//! disk.crash(None); // what was not synced is lost
//! let mut file = LifeFile::open(disk, 1, 2)?;
//! assert_eq!(rt; file.draw(), Ok(17));
//! ```
#![tactic(auto)]

mod call_record;
mod disk;
mod file_disk;
mod fuse;
mod fuse_disk;
mod laws;
mod lengths;
mod life_file;
mod limit_values;
mod mem_disk;
mod migration;
mod numbers;
mod opening;
mod slots;
mod state;
mod system_file;
mod tags;
mod tearing;
mod whole_read;
mod writing;

pub use disk::{Disk, DiskError};
pub use file_disk::FileDisk;
pub use fuse::{Fuse, FuseMode};
pub use fuse_disk::FuseDisk;
pub use laws::{drawn_life_numbers_rise, tags_name_their_owners};
pub use life_file::{LifeFile, OpenFault};
pub use limit_values::limits_have_their_values;
pub use mem_disk::MemDisk;
pub use numbers::LifeError;
pub use slots::{bound_of, slot_bytes};
pub use state::DiskCall;
pub use system_file::{SystemFile, SystemFiles};
pub use tags::{Owner, Tag, tag_bytes};
pub use whole_read::{ReadFrom, read_whole};
