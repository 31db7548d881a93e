//! Reads and changes of a view's rows.
ghost use Rattle.std.specs.Prelude.{◌≡◌, false, ◌<◌, ◌≤◌, ◌+◌, ◌^◌, ◌≤ℤ◌, pos, neg_ℤ, IfSome, fold, filter, nat_lt};
ghost use Rattle.std.specs.Prelude.{position, length, slice_index_or, ◌==◌, None};
ghost use Rattle.std.specs.List.{list_any, list_all};
ghost use Rattle.arrayvec.specs.ArrayVec.{array_vec_len};
ghost use Rattle.tora_height.specs.Height.{IsLevel};
ghost use Rattle.tora_core.specs.View.{neighbours_of, heights_of, are_null, is_downstream, lower_of, least_height};
ghost use Rattle.tora_core.specs.View.{lower_row_of, higher_level_of, greatest_level, lower_delta_of, least_delta};
ghost use Rattle.tora_core.specs.View.{is_at, all_told, told_row, row_with_entry, is_told, with_entry, erased_row};
ghost use Rattle.tora_core.specs.View.{all_erased, cleared_row, all_cleared, is_cleared, is_entry_at, with_row};
ghost use Rattle.tora_core.specs.View.{without_row};
ghost use Rattle.tora_core.specs.Heights.{time_after_all};
ghost use Rattle.tora_core.specs.Rules.{link_row};
ghost use Rattle.tora_core.specs.Links.{with_entry_at};

use tora_height::{Entry, Height, Id, Level};

/// What a view has of one neighbour. While its link is not up, the entry is NULL.
#[derive(Clone, Copy, Debug, Default, PartialEq, Eq, Hash)]
pub struct Row {
    /// The height that the neighbour sent last, or (0,0,0,0,`neighbour`) if it is the destination; `None` for NULL.
    pub entry: Entry,
    pub neighbour: Id,
    /// The mark: an update was broadcast since the link came up, and no clear from the neighbour has removed the mark
    /// since.
    pub told: bool,
}

/// The row of a neighbour whose link came up, with this entry.
pub fn link_row(k: Id, entry: Entry) -> Row
    ensures { result ≡ link_row k entry }
{
    Row {
        neighbour: k,
        entry,
        told: false,
    }
}

/// Whether the link to a neighbour with this entry is downstream.
pub fn is_downstream(own: Entry, entry: Entry) -> bool
    ensures { result ≡ is_downstream own entry }
{
    match (own, entry) {
        (_, None) => false,
        (None, Some(_)) => true,
        (Some(own), Some(entry)) => entry.is_lower(&own),
    }
}

/// The greater of `best` and the level of the height; that level if `best` is `None`.
fn higher_level_of(best: Option<Level>, height: Height) -> Option<Level>
    requires { IfSome best IsLevel }
    ensures value { result ≡ higher_level_of best height }
    ensures ranges { IfSome result IsLevel }
{
    match best {
        None => Some(height.level()),
        Some(best) => {
            if best < height.level() {
                Some(height.level())
            } else {
                Some(best)
            }
        }
    }
}

/// The greatest reference level of the entries; `None` if every entry is NULL.
pub fn greatest_level(rows: &[Row]) -> Option<Level>
    ensures value { result ≡ greatest_level (heights_of rows.now) }
    ensures ranges { IfSome result IsLevel }
{
    let mut best = None;
    for row in rows {
        if let Some(height) = row.entry {
            best = higher_level_of(best, height);
        }
    }
    best
}

/// Whether the height is at the level.
pub fn is_at(level: Level, height: Height) -> bool
    ensures { result ≡ is_at level height }
{
    height.level() == level
}

/// Whether every entry that is not NULL is at the level.
pub fn all_at(level: Level, rows: &[Row]) -> bool
    ensures { result ≡ list_all (is_at level) (heights_of rows.now) }
{
    rows.iter()
        .filter_map(|row| row.entry)
        .all(|height| is_at(level, height))
}

/// One more than the greatest time tag of the entries, in ticks of 100 ms; 0 if every entry is NULL.
pub fn time_after_all(rows: &[Row]) -> u64
    ensures { result ≡ time_after_all (heights_of rows.now) }
{
    rows.iter()
        .filter_map(|row| row.entry)
        .fold(0, |time, height| time.max(height.tau() + 1))
}

/// The lesser of `best` and `delta`; `delta` if `best` is `None`.
fn lower_delta_of(best: Option<i32>, delta: i32) -> Option<i32>
    ensures { result ≡ lower_delta_of best delta }
{
    match best {
        None => Some(delta),
        Some(best) => {
            if delta < best {
                Some(delta)
            } else {
                Some(best)
            }
        }
    }
}

/// The least delta of the entries at a level; `None` if no entry is at it.
pub fn least_delta(level: Level, rows: &[Row]) -> Option<i32>
    ensures value { result ≡ least_delta level (heights_of rows.now) }
    ensures low { IfSome result (λ delta. neg_ℤ (pos (2 ^ 30)) ≤ℤ delta) }
{
    let mut best = None;
    for row in rows {
        if let Some(height) = row.entry {
            if is_at(level, height) {
                best = lower_delta_of(best, height.delta());
            }
        }
    }
    best
}

/// Sets the mark of a row.
fn tell_row(row: &mut Row)
    ensures { row.new ≡ told_row row.old }
{
    row.told = true;
}

/// Marks that an update was broadcast to every neighbour whose link is up.
pub fn tell_all(rows: &mut [Row])
    ensures { rows.new ≡ all_told rows.old }
{
    for row in rows.iter_mut() {
        tell_row(row);
    }
}

/// The row at a place.
pub fn row_at(place: usize, rows: &[Row]) -> &Row
    requires { place < length rows.now }
    ensures { result.now ≡ slice_index_or rows.now place result.now }
{
    &rows[place]
}

/// Sets the height of the neighbour whose row is at `place`.
pub fn put_entry(place: usize, height: Height, rows: &mut [Row])
    requires { place < length rows.old }
    ensures { rows.new ≡ with_entry_at place height rows.old }
{
    rows[place].entry = Some(height);
}

/// Sets the entry of a row to NULL, unless the neighbour is the destination.
fn erase_row(destination: Id, row: &mut Row)
    ensures { row.new ≡ erased_row destination row.old }
{
    if row.neighbour != destination {
        row.entry = None;
    }
}

/// Erases every entry except that of the destination.
pub fn erase_all(destination: Id, rows: &mut [Row])
    ensures { rows.new ≡ all_erased destination rows.old }
{
    for row in rows.iter_mut() {
        erase_row(destination, row);
    }
}

/// Whether the entry is at the level; `false` for NULL.
pub fn is_entry_at(level: Level, entry: Entry) -> bool
    ensures { result ≡ is_entry_at level entry }
{
    match entry {
        None => false,
        Some(height) => is_at(level, height),
    }
}

/// Erases the entry of a row if it is at the level, unless the neighbour is the destination. Returns whether it was
/// erased.
fn clear_row(destination: Id, level: Level, row: &mut Row) -> bool
    ensures row { row.new ≡ cleared_row destination level row.old }
    ensures cleared { result ≡ is_cleared destination level row.old }
    ensures none { result ≡ false → row.new ≡ row.old }
{
    let other = row.neighbour != destination;
    let at = is_entry_at(level, row.entry);
    if other && at {
        row.entry = None;
        true
    } else {
        false
    }
}

/// Erases the entries at a level, except that of the destination. Returns whether there were any.
pub fn clear_level(destination: Id, level: Level, rows: &mut [Row]) -> bool
    ensures rows { rows.new ≡ all_cleared destination level rows.old }
    ensures cleared { result ≡ list_any (is_cleared destination level) rows.old }
    ensures none { result ≡ false → rows.new ≡ rows.old }
{
    let mut cleared = false;
    for row in rows.iter_mut() {
        if clear_row(destination, level, row) {
            cleared = true;
        }
    }
    cleared
}
