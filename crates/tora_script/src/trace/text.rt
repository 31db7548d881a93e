//! Heights and next hops as text.
use std::fmt;
use tora_height::{Entry, Id};

/// A height as `(tau,oid,r,delta,id)`, and NULL as `-`.
#[derive(Clone, Copy)]
pub struct HeightText(pub Entry);

impl fmt::Display for HeightText {
    ghost use Rattle.std.specs.Prelude.{Some};
    ghost use Rattle.tora_core.specs.ShowText.{height_text};

    ghost output = { λ t. Some (height_text t.0) };

    fn fmt<W: fmt::Write>(&self, f: &mut fmt::Formatter<W>) -> fmt::Result {
        match self.0 {
            None => write!(f, "-"),
            Some(height) => write!(f, "{height}"),
        }
    }
}

/// A next hop by its number, or `-` if there is none.
#[derive(Clone, Copy)]
pub struct HopText(pub Option<Id>);

impl fmt::Display for HopText {
    ghost use Rattle.std.specs.Prelude.{Some};
    ghost use Rattle.tora_core.specs.ShowText.{hop_text};

    ghost output = { λ t. Some (hop_text t.0) };

    fn fmt<W: fmt::Write>(&self, f: &mut fmt::Formatter<W>) -> fmt::Result {
        match self.0 {
            None => write!(f, "-"),
            Some(hop) => write!(f, "{hop}"),
        }
    }
}
