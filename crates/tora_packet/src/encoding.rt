//! Packets to bytes.
ghost use Rattle.std.specs.Prelude.{◌≡◌, ◌+◌, ◌≤◌, ◌∷◌, ◌++◌, length};
ghost use Rattle.std.specs.Int.{w32, to_be_bytes, cast_unsigned};
ghost use Rattle.arrayvec.specs.ArrayVec.{array_vec_len};
ghost use Rattle.tora_packet.specs.declared.Packet.TheVariants.{Upd, Clr};
ghost use Rattle.tora_packet.specs.PacketGrammar.{SpellsPacket, packet_spelling};

use crate::{CLEAR_LENGTH, Clear, LONGEST_PACKET, Packet, UPDATE_LENGTH, Update};
use arrayvec::ArrayVec;
use tora_height::{Height, Id};

/// Appends bytes. There must be room for them.
fn put<const N: usize>(out: &mut ArrayVec<u8, N>, bytes: &[u8])
    requires { array_vec_len out.old + length bytes.now ≤ N }
    ensures items { out.new.items ≡ out.old.items ++ bytes.now }
    ensures len { array_vec_len out.new ≡ array_vec_len out.old + length bytes.now }
{
    let Ok(()) = out.try_extend_from_slice(bytes) else {
        unreachable!()
    };
}

/// Appends the version, the kind, two zeros and the destination, with which each packet begins.
fn begin<const N: usize>(kind: u8, destination: Id, out: &mut ArrayVec<u8, N>)
    requires { array_vec_len out.old + 8 ≤ N }
    ensures items { out.new.items ≡ out.old.items ++ 1 ∷ kind ∷ 0 ∷ 0 ∷ to_be_bytes w32 destination }
    ensures len { array_vec_len out.new ≡ array_vec_len out.old + 8 }
{
    put(out, &[1, kind, 0, 0]);
    put(out, &destination.to_be_bytes());
}

/// Appends the four bytes of a height's delta. There must be room for them.
fn put_delta<const N: usize>(height: &Height, out: &mut ArrayVec<u8, N>)
    requires { array_vec_len out.old + 4 ≤ N }
    ensures items { out.new.items ≡ out.old.items ++ to_be_bytes w32 (cast_unsigned w32 height.now.delta) }
    ensures len { array_vec_len out.new ≡ array_vec_len out.old + 4 }
{
    put(out, &height.delta().to_be_bytes());
}

/// Appends the 32 bytes of an update. There must be room for them.
fn append_update<const N: usize>(update: &Update, out: &mut ArrayVec<u8, N>)
    requires { array_vec_len out.old + UPDATE_LENGTH ≤ N }
    ensures { out.new.items ≡ out.old.items ++ packet_spelling (Upd update.now) }
{
    let height = update.height();
    begin(2, update.destination(), out);
    put(out, &height.tau().to_be_bytes());
    put(out, &height.oid().to_be_bytes());
    put(out, &[height.r(), 0, 0, 0]);
    put_delta(&height, out);
    put(out, &height.id().to_be_bytes());
}

/// Appends the 20 bytes of a clear. There must be room for them.
fn append_clear<const N: usize>(clear: &Clear, out: &mut ArrayVec<u8, N>)
    requires { array_vec_len out.old + CLEAR_LENGTH ≤ N }
    ensures { out.new.items ≡ out.old.items ++ packet_spelling (Clr clear.now) }
{
    begin(3, clear.destination(), out);
    put(out, &clear.tau().to_be_bytes());
    put(out, &clear.oid().to_be_bytes());
}

/// Appends the bytes of a packet; `encoded_length` returns their number. There must be room for the longest packet.
pub fn append<const N: usize>(packet: &Packet, out: &mut ArrayVec<u8, N>)
    requires { array_vec_len out.old + LONGEST_PACKET ≤ N }
    ensures { out.new.items ≡ out.old.items ++ packet_spelling packet.now }
{
    match packet {
        Packet::Qry(query) => begin(1, query.destination(), out),
        Packet::Upd(update) => append_update(update, out),
        Packet::Clr(clear) => append_clear(clear, out),
    }
}

/// The bytes of a packet; `encoded_length` returns their number.
pub fn encode(packet: &Packet) -> ArrayVec<u8, LONGEST_PACKET>
    ensures spells { SpellsPacket result.items packet.now }
    ensures exact { result.items ≡ packet_spelling packet.now }
{
    let _destination = packet.destination();
    let mut out = ArrayVec::new();
    append(packet, &mut out);
    out
}
