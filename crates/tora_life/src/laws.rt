//! The laws of the life file over all runs.
ghost use Rattle.std.specs.Prelude.{◌≡◌, ◌≢◌, ◌⊎◌, ◌^◌, ◌<◌, ◌≤◌, ℕ, List, [], ◌∷◌, ◌++◌, length, Option, Err};
ghost use Rattle.tora_life.specs.declared.lengths.TheConstants.{DISK_LENGTH, SLOTS_LENGTH};
ghost use Rattle.tora_life.specs.declared.tags.Owner.{Owner};
ghost use Rattle.tora_life.specs.declared.numbers.LifeError.TheVariants as LifeErrors;
ghost use Rattle.tora_life.specs.declared.tags.Tag.TheVariants as Tags;
ghost use Rattle.tora_life.specs.LifeFile.{file_value};
ghost use Rattle.tora_life.specs.Migration.{version_of};
ghost use Rattle.tora_life.specs.State.{fresh_state, after_crash};
ghost use Rattle.tora_life.specs.Tags.{tag_of, tag_read};
ghost use Rattle.tora_life.specs.LifeRun.{LifeDisk, LifeEvent, Draw, MayHappen, IsLeftBy, IsRun, IsFloor, RisesAbove};
ghost use Rattle.tora_life.specs.LifeRun.{opened, state_in, after_event, drawn_by, drawn_numbers};

/// Drawn session numbers rise across crashes. The function does nothing: its contract is a law.
///
/// A run consists of draws, failing calls of the disk, and crashes, which leave any file that the disk may leave. In
/// every run each number drawn is greater than all numbers drawn before it and than the value of the first file. That
/// file may be any: of version 1, torn while it was migrated, or with a tag. A crash inside a draw counts as a crash
/// after a draw whose write or sync was armed to fail, because the same bytes may be torn.
///
/// The law is about the functions that `open` and `draw` of a `LifeFile` over a `MemDisk` compute. Its proof uses a
/// floor: a number such that neither it nor a smaller one is drawn again. The other clauses are steps of the proof, for
/// a law about many life files.
pub fn drawn_life_numbers_rise()
    ensures rise { (owner : Owner) (file : List ℕ) (events : List LifeEvent) → length file ≤ DISK_LENGTH
        → IsRun (opened owner (fresh_state file)) events → RisesAbove (file_value file)
        (drawn_numbers (opened owner (fresh_state file)) events) }

    // The value of the file is the first floor, and a number that is drawn is the next floor. No event lowers the
    // floor.
    ensures first { (owner : Owner) (file : List ℕ) → length file ≤ DISK_LENGTH
        → IsFloor (file_value file) (opened owner (fresh_state file)) }
    ensures draw { (n x : ℕ) (disk : LifeDisk) → IsFloor n disk → drawn_by Draw disk ≡ x ∷ []
        → (n < x) × IsFloor x (after_event Draw disk) }
    ensures keep { (n : ℕ) (event : LifeEvent) (disk : LifeDisk) → IsFloor n disk → MayHappen event disk
        → IsFloor n (after_event event disk) }

    // An event draws at most one number.
    ensures one { (event : LifeEvent) (disk : LifeDisk) → (drawn_by event disk ≡ [])
        ⊎ ((x : ℕ) × (drawn_by event disk ≡ x ∷ [])) }

    // A crash of a disk in memory leaves a file that a crash may leave.
    ensures crash { (n : ℕ) (torn : Option (List ℕ)) (disk : LifeDisk) → IsFloor n disk
        → IsLeftBy (state_in disk) (after_crash torn (state_in disk)) }
{}

/// A tag names its owner. The function does nothing: its contract is a law.
///
/// The bytes of an owner's tag are read as the tag of that owner, and no other bytes are. A file with the tag of
/// another owner is foreign. So a file that was copied to another node or another link is refused.
pub fn tags_name_their_owners()
    ensures read { (owner : Owner) → owner.node < 2 ^ 32 → owner.peer < 2 ^ 32
        → tag_read (tag_of owner) ≡ Tags.Of owner }
    ensures foreign { (owner other : Owner) (slots : List ℕ) → other.node < 2 ^ 32 → other.peer < 2 ^ 32
        → owner.node < 2 ^ 32 → owner.peer < 2 ^ 32 → owner ≢ other → length slots ≡ SLOTS_LENGTH
        → version_of owner (slots ++ tag_of other) ≡ Err LifeErrors.Foreign }
{}
