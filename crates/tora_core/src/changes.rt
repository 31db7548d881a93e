//! The effect of each change of a view's rows on the terms of the relation: which links are up, which height each
//! neighbour sent, and which neighbours were sent an update (the marks).
ghost use Rattle.std.specs.Prelude.{◌≡◌, ◌≢◌, ◌↔◌, ◌⊎◌, ℕ, true, None, Some};
ghost use Rattle.tora_height.specs.Height.{Quintuple, level_of};
ghost use Rattle.tora_height.specs.declared.level.Level.{Level};
ghost use Rattle.tora_core.specs.declared.rows.Row.{Row};
ghost use Rattle.tora_core.specs.View.{View, all_cleared, all_erased, all_told, greatest_level, known_heights};
ghost use Rattle.tora_core.specs.View.{least_delta, next_hop_of, with_entry, with_row, without_entry, without_row};
ghost use Rattle.tora_core.specs.View.{without_told};
ghost use Rattle.tora_core.specs.Reacts.{HasNoDownstream, IsEntry, IsKnown, IsTold, IsUp, KnowsNone};

/// A new row adds one neighbour, with the height and the mark of the row.
pub fn rows_come()
    ensures up { (v : View) (new : Row) (k : ℕ)
        → IsUp (record v { rows = with_row new v.rows }) k ↔ (IsUp v k ⊎ (new.neighbour ≡ k)) }
    ensures entry { (v : View) (new : Row) (k : ℕ) (h : Quintuple)
        → IsEntry (record v { rows = with_row new v.rows }) k h ↔ (IsEntry v k h
        ⊎ ((new.neighbour ≡ k) × (new.entry ≡ Some h))) }
    ensures told { (v : View) (new : Row) (k : ℕ)
        → IsTold (record v { rows = with_row new v.rows }) k ↔ (IsTold v k
        ⊎ ((new.neighbour ≡ k) × (new.told ≡ true))) }
{}

/// Removing the row of a neighbour leaves the other rows as they are.
pub fn rows_go()
    ensures up { (v : View) (j k : ℕ) → IsUp (record v { rows = without_row j v.rows }) k ↔ (IsUp v k × (k ≢ j)) }
    ensures entry { (v : View) (j k : ℕ) (h : Quintuple)
        → IsEntry (record v { rows = without_row j v.rows }) k h ↔ (IsEntry v k h × (k ≢ j)) }
    ensures told { (v : View) (j k : ℕ) → IsTold (record v { rows = without_row j v.rows }) k ↔ (IsTold v k × (k ≢ j)) }
{}

/// A neighbour's update replaces its entry by the update's height and changes no other entry.
pub fn entries_are_taken()
    ensures up { (v : View) (j k : ℕ) (g : Quintuple) → IsUp (record v { rows = with_entry j g v.rows }) k ↔ IsUp v k }
    ensures entry { (v : View) (j k : ℕ) (g h : Quintuple) → IsEntry (record v { rows = with_entry j g v.rows }) k h
        ↔ ((IsEntry v k h × (k ≢ j)) ⊎ (IsUp v k × (k ≡ j) × (g ≡ h))) }
    ensures told { (v : View) (j k : ℕ) (g : Quintuple) → IsTold (record v { rows = with_entry j g v.rows }) k
        ↔ IsTold v k }
{}

/// A broadcast of an update marks every neighbour whose link is up, and changes no height.
pub fn all_are_told()
    ensures up { (v : View) (k : ℕ) → IsUp (record v { rows = all_told v.rows }) k ↔ IsUp v k }
    ensures entry { (v : View) (k : ℕ) (h : Quintuple) → IsEntry (record v { rows = all_told v.rows }) k h
        ↔ IsEntry v k h }
    ensures told { (v : View) (k : ℕ) → IsTold (record v { rows = all_told v.rows }) k ↔ IsUp v k }
{}

/// Erasing removes every entry except that of the destination, and changes no link and no mark.
pub fn all_are_erased()
    ensures up { (v : View) (d k : ℕ) → IsUp (record v { rows = all_erased d v.rows }) k ↔ IsUp v k }
    ensures entry { (v : View) (d k : ℕ) (h : Quintuple)
        → IsEntry (record v { rows = all_erased d v.rows }) k h ↔ (IsEntry v k h × (k ≡ d)) }
    ensures told { (v : View) (d k : ℕ) → IsTold (record v { rows = all_erased d v.rows }) k ↔ IsTold v k }
{}

/// Clearing a level removes the entries at that level, except that of the destination, and changes no link and no mark.
pub fn all_are_cleared()
    ensures up { (v : View) (d k : ℕ) (level : Level) → IsUp (record v { rows = all_cleared d level v.rows }) k
        ↔ IsUp v k }
    ensures entry { (v : View) (d k : ℕ) (level : Level) (h : Quintuple)
        → IsEntry (record v { rows = all_cleared d level v.rows }) k h
        ↔ (IsEntry v k h × ((k ≡ d) ⊎ (level_of h ≢ level))) }
    ensures told { (v : View) (d k : ℕ) (level : Level) → IsTold (record v { rows = all_cleared d level v.rows }) k
        ↔ IsTold v k }
{}

/// Withdrawing a neighbour's entry removes it, unless the neighbour is the destination, and changes no link and no
/// mark.
pub fn entries_are_withdrawn()
    ensures up { (v : View) (d j k : ℕ) → IsUp (record v { rows = without_entry d j v.rows }) k ↔ IsUp v k }
    ensures entry { (v : View) (d j k : ℕ) (h : Quintuple)
        → IsEntry (record v { rows = without_entry d j v.rows }) k h ↔ (IsEntry v k h × ((k ≡ d) ⊎ (k ≢ j))) }
    ensures told { (v : View) (d j k : ℕ) → IsTold (record v { rows = without_entry d j v.rows }) k ↔ IsTold v k }
{}

/// Withdrawing a mark removes it from one neighbour, and changes nothing else.
pub fn marks_are_withdrawn()
    ensures up { (v : View) (j k : ℕ) → IsUp (record v { rows = without_told j v.rows }) k ↔ IsUp v k }
    ensures entry { (v : View) (j k : ℕ) (h : Quintuple) → IsEntry (record v { rows = without_told j v.rows }) k h
        ↔ IsEntry v k h }
    ensures told { (v : View) (j k : ℕ) → IsTold (record v { rows = without_told j v.rows }) k
        ↔ (IsTold v k × (k ≢ j)) }
{}

/// The searches find nothing in these cases: no next hop if no neighbour is downstream, no greatest level if every
/// entry is NULL, and no least delta if no entry is at the level.
pub fn nothing_is_found()
    ensures next_hop { (v : View) → (next_hop_of v ≡ None) ↔ HasNoDownstream v }
    ensures level { (v : View) → (greatest_level (known_heights v) ≡ None) ↔ KnowsNone v }
    ensures delta { (v : View) (level : Level) → (least_delta level (known_heights v) ≡ None)
        ↔ ((h : Quintuple) → IsKnown v h → level_of h ≢ level) }
{}
