//! The lines of a channel file, in order.
ghost use Rattle.std.specs.List.Sorted.{IsNonDecreasingBy};
ghost use Rattle.tora_script.specs.TableOrder.{key_of, items_of};

use crate::channel::line::ChannelLine;

/// The table of a channel file: its lines, in the order of their links and then of their rounds.
#[derive(Drop)]
pub struct ChannelTable {
    pub(crate) lines: Option<Vec<ChannelLine>>,
    ghost in_order: { IsNonDecreasingBy key_of (items_of lines) },
}
