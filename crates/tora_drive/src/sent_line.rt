//! The line of a datagram. It is put together without a formatter, because most of what a drive prints is such lines.
ghost use Rattle.std.specs.Prelude.{◌≡◌, ◌<◌, ◌≤◌, ◌+◌, ◌++◌, ◌∷◌, [], codes, OnOk, length, drop, string_bytes};
ghost use Rattle.std.specs.Str.{IsAscii};
ghost use Rattle.std.specs.Fmt.{decimal};
ghost use Rattle.tora_drive.specs.declared.sent_line.TheConstants.{LONGEST_WORD};

use std::alloc::AllocError;
use tora_height::Id;

/// The most bytes of a space and a number.
const LONGEST_WORD: usize = 21;

/// The most bytes of a line after its first word: four numbers, each with a space, and an LF.
const LONGEST_REST: usize = 4 * LONGEST_WORD + 1;

/// Writes a space and a number that end before index `end`, and returns the index of the space.
#[inline(always)]
fn put_number(room: &mut [u8], end: usize, n: u64) -> usize
    requires room { (LONGEST_WORD ≤ end) × (end ≤ length room.old) }
    requires ascii { IsAscii (drop end room.old) }
    ensures bounds { (end ≤ result + LONGEST_WORD) × (result < end) }
    ensures written { drop result room.new ≡ 32 ∷ decimal n ++ drop end room.old }
    ensures ascii { IsAscii (drop result room.new) }
    ensures length { length room.new ≡ length room.old }
{
    let first = itoa::write_digits(n, room, end);
    room[first - 1] = b' ';
    first - 1
}

/// The text from a place on.
#[inline(always)]
fn text_from(room: &[u8], at: usize) -> &str
    requires place { at ≤ length room.now }
    requires ascii { IsAscii (drop at room.now) }
    ensures { result.now ≡ drop at room.now }
{
    let Ok(text) = str::from_utf8(&room[at..]) else {
        unreachable!()
    };
    text
}

/// Appends `sent A B ID LENGTH` to a text.
pub fn write_line(
    out: &mut String,
    sender: Id,
    receiver: Id,
    i: u64,
    length: usize,
) -> Result<(), AllocError>
    ensures { OnOk result (string_bytes out.new ≡ string_bytes out.old ++ codes "sent " ++ decimal sender ++ codes " "
        ++ decimal receiver ++ codes " " ++ decimal i ++ codes " " ++ decimal length ++ 10 ∷ []) }
{
    let mut room = [b'\n'; LONGEST_REST];
    let at = put_number(&mut room, LONGEST_REST - 1, length as u64);
    let at = put_number(&mut room, at, i);
    let at = put_number(&mut room, at, u64::from(receiver));
    let at = put_number(&mut room, at, u64::from(sender));
    out.push_str("sent")?;
    out.push_str(text_from(&room, at))?;
    Ok(())
}
