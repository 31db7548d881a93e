//! A driven world with the answer to its last line, which a handle of a world holds.
ghost use Rattle.std.specs.Prelude.{◌≡◌, ◌⊎◌};
ghost use Rattle.tora_arq.specs.Settings.{IsTimes};
ghost use Rattle.tora_c.specs.WorldHeld.{after_line, anew, first_world, limits_of, options_of, world_view};

use crate::codes::{MEMORY, OK};
use crate::core_node::erasure_of;
use std::alloc::Global;
use tora_drive::{Drive, DriveSetup};
use tora_script::WorldOptions;
use tora_sim::Sim;
use tora_world::Limits;

/// A driven world, and the answer to its last line.
#[derive(Drop)]
pub struct WorldNode {
    pub drive: Drive<Sim>,
    pub answer: String,
}

/// The limits of a world: 0 is `STANDARD`, 1 is `GREATEST`; `None` for any other number.
fn limits_of(choice: u32) -> Option<Limits>
    ensures { result ≡ limits_of choice }
{
    if choice == 0 {
        Some(Limits::STANDARD)
    } else if choice == 1 {
        Some(Limits::GREATEST)
    } else {
        None
    }
}

/// The options of a world for two choices; `None` if one of the numbers is not 0 or 1.
pub fn options_of(limits: u32, erasure: u32) -> Option<WorldOptions>
    ensures { result ≡ options_of limits erasure }
{
    let limits = limits_of(limits)?;
    let erasure = erasure_of(erasure)?;
    Some(WorldOptions { limits, erasure })
}

impl WorldNode {
    /// A world that has taken no line.
    pub fn new(alloc: Global, setup: DriveSetup) -> WorldNode
        requires { IsTimes setup.times }
        ensures { world_view result ≡ first_world setup }
    {
        WorldNode {
            drive: Drive::new(alloc, setup),
            answer: String::new(alloc),
        }
    }

    /// Takes a line, without its LF, stores the answer, and returns `OK`. `MEMORY`: the world is as it was made,
    /// without an answer.
    pub fn take_line(&mut self, alloc: Global, line: &[u8]) -> u32
        ensures code { (result ≡ OK) ⊎ (result ≡ MEMORY) }
        ensures done { result ≡ OK → world_view self.new ≡ after_line line.now (world_view self.old) }
        ensures memory { result ≡ MEMORY → world_view self.new ≡ anew (world_view self.old) }
    {
        match self.drive.answer(alloc, line, &mut self.answer) {
            Ok(()) => OK,
            Err(_) => MEMORY,
        }
    }
}
