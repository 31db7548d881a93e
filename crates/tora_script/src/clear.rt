//! Rounds over the clear channel.
ghost use Rattle.std.specs.Prelude.{◌≡◌, ℕ, List, []};
ghost use Rattle.tora_script.specs.Table.{clear};
ghost use Rattle.tora_world.specs.World.{World, datagram};
ghost use Rattle.tora_script.specs.InFlight.{put_off, MomentView as AnyMoment};
ghost use Rattle.tora_script.specs.Rounds.{arrival_of, delivery};

use crate::channel::Channel;

/// Over the clear channel each datagram of a pass is delivered in that pass, once, unless its nodes are parted, and
/// none is delayed.
pub fn clear_channel_delivers_at_once()
    ensures now { (parted : List (ℕ × ℕ)) (m : AnyMoment) (i : ℕ) (w : World) → m.channel ≡ clear
        → delivery parted m i w ≡ arrival_of parted i (datagram w i) w }
    ensures later { (parted : List (ℕ × ℕ)) (m : AnyMoment) (count : ℕ) (w : World) → m.channel ≡ clear
        → put_off parted m count w ≡ [] }
{
    Channel::CLEAR.is_clear();
}
