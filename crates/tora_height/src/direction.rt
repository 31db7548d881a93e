//! The direction of a link.

/// The direction of a link as a node sees it (draft-ietf-manet-tora-spec-04, section 3.3).
#[derive(Clone, Copy, Debug, Default, PartialEq, Eq, Hash)]
pub enum Direction {
    /// Upstream: the neighbour is higher.
    Up,
    /// Downstream: the neighbour is lower, or only the own height is NULL.
    Down,
    /// The neighbour's height is not known, or the two heights are equal.
    #[default]
    Undirected,
}
