//! Removal of a neighbour's entry and mark.
ghost use Rattle.std.specs.Prelude.{◌≡◌};
ghost use Rattle.tora_core.specs.View.{untold_row, withdrawn_row, without_entry, without_told};

use crate::links::{Links, direct, place_of_least};
use crate::rows::Row;
use tora_height::Id;

impl Links {
    /// Removes the entry of neighbour `k`, unless `k` is the destination.
    pub fn withdraw(&mut self, destination: Id, k: Id)
        ensures { self.new ≡ record self.old { rows = without_entry destination k self.old.rows } }
    {
        withdraw(destination, k, self.places.as_mut_slice());
        self.downstream = direct(
            &self.own,
            self.places.as_slice(),
            self.directions.as_mut_slice(),
        );
        self.least = place_of_least(self.places.as_slice());
    }

    /// Removes the mark that an update was broadcast to neighbour `k`.
    pub fn untell(&mut self, k: Id)
        ensures { self.new ≡ record self.old { rows = without_told k self.old.rows } }
    {
        untell(k, self.places.as_mut_slice());
    }
}

/// Sets the entry of a row to NULL if it is the row of neighbour `k` and `k` is not the destination.
fn withdraw_row(destination: Id, k: Id, row: &mut Row)
    ensures { row.new ≡ withdrawn_row destination k row.old }
{
    if row.neighbour == k && row.neighbour != destination {
        row.entry = None;
    }
}

/// Sets the entry of neighbour `k` to NULL, unless `k` is the destination.
fn withdraw(destination: Id, k: Id, rows: &mut [Row])
    ensures { rows.new ≡ without_entry destination k rows.old }
{
    for row in rows.iter_mut() {
        withdraw_row(destination, k, row);
    }
}

/// Removes the mark of a row if it is the row of neighbour `k`.
fn untell_row(k: Id, row: &mut Row)
    ensures { row.new ≡ untold_row k row.old }
{
    if row.neighbour == k {
        row.told = false;
    }
}

/// Removes the mark of neighbour `k`.
fn untell(k: Id, rows: &mut [Row])
    ensures { rows.new ≡ without_told k rows.old }
{
    for row in rows.iter_mut() {
        untell_row(k, row);
    }
}
