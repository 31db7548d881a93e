//! The records of packets that are broadcast.
ghost use Rattle.std.specs.Prelude.{◌≡◌, ◌++◌, OnOk, string_bytes};
ghost use Rattle.std.specs.List.{flat_map};
ghost use Rattle.tora_script.specs.TraceRecords.{packet_record};

use std::alloc::AllocError;
use tora_height::Id;
use tora_packet::Packet;

/// Appends the record of a packet that goes to this many neighbours to a text.
#[tactic(auto, unfolding(crate::specs::TraceRecords::packet_record))]
fn write_packet(
    out: &mut String,
    now: u64,
    n: Id,
    count: usize,
    packet: &Packet,
) -> Result<(), AllocError>
    ensures { OnOk result (string_bytes out.new ≡ string_bytes out.old ++ packet_record now n count packet.now) }
{
    match packet {
        Packet::Qry(query) => {
            let d = query.destination();
            writeln!(out, "{now} qry {n} {d} {count}")
        }
        Packet::Upd(update) => {
            let (d, height) = (update.destination(), update.height());
            writeln!(out, "{now} upd {n} {d} {count} {height}")
        }
        Packet::Clr(clear) => {
            let (d, tau, oid) = (clear.destination(), clear.tau(), clear.oid());
            writeln!(out, "{now} clr {n} {d} {count} {tau} {oid}")
        }
    }
}

/// Appends the record of each packet to a text, in order.
pub fn write_packets(
    out: &mut String,
    now: u64,
    n: Id,
    count: usize,
    packets: &[Packet],
) -> Result<(), AllocError>
    ensures { OnOk result (string_bytes out.new ≡ string_bytes out.old
        ++ flat_map (packet_record now n count) packets.now) }
{
    for packet in packets {
        write_packet(out, now, n, count, packet)?;
    }
    Ok(())
}
