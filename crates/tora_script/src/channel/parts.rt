//! A channel as a word of the command line.
ghost use Rattle.std.specs.Prelude.{◌≡◌, ◌<◌, option_map};
ghost use Rattle.std.specs.Result.{result_ok};
ghost use Rattle.std.specs.List.{list_all};
ghost use Rattle.std.specs.Char.{is_ascii_digit};
ghost use Rattle.tora_script.specs.Parts.{digit_at, is_fraction, whole_share, share_of, delay_of, once, with_part};
ghost use Rattle.tora_script.specs.Parts.{parts_of, channel_by};

use crate::channel::channel::{Channel, PARTS};
use tora_lines::words;

/// The greatest delay in rounds.
const MOST_DELAY: u64 = 10_000;

/// The parts of a channel that a word names. `None` is a part that it does not name, which counts as 0.
#[derive(Clone, Copy, Debug, PartialEq, Eq)]
pub struct Parts {
    /// How many of a million datagrams are lost.
    pub loss: Option<u32>,
    /// How many of a million datagrams that are not lost arrive twice on average.
    pub repeat: Option<u32>,
    /// The least and the greatest delay in rounds.
    pub delay: Option<(u32, u32)>,
}

/// The digit at an index; 0 after the last one.
fn digit(text: &[u8], place: usize) -> u32
    ensures value { result ≡ digit_at text.now place }
    ensures small { result < 256 }
{
    u32::from(text.get(place).copied().unwrap_or(48).saturating_sub(48))
}

/// Whether each byte of the text is a decimal digit; also `true` for an empty text.
fn is_all_digits(text: &[u8]) -> bool
    ensures { result ≡ list_all is_ascii_digit text.now }
{
    text.iter().all(|c| c.is_ascii_digit())
}

/// Whether these are one to six digits.
fn is_fraction(text: &[u8]) -> bool
    ensures { result ≡ is_fraction text.now }
{
    if text.is_empty() || text.len() > 6 {
        return false;
    }
    is_all_digits(text)
}

/// The share 0 or 1, in millionths; `None` for any other number.
fn whole_share(number: u64) -> Option<u32>
    ensures { result ≡ whole_share number }
{
    match number {
        0 => Some(0),
        1 => Some(PARTS),
        _ => None,
    }
}

/// A share from 0 to 1, in millionths: `0`, `1`, or `0.` and one to six digits. `None` for any other text.
#[tactic(auto, unfolding(crate::specs::Parts::share_of))]
fn share(text: &[u8]) -> Option<u32>
    ensures { result ≡ share_of text.now }
{
    let Some((whole, fraction)) = words::cut(b'.', text) else {
        return whole_share(words::number(text)?);
    };
    if words::number(whole)? != 0 || !is_fraction(fraction) {
        return None;
    }
    Some(
        digit(fraction, 0) * 100_000
            + digit(fraction, 1) * 10_000
            + digit(fraction, 2) * 1_000
            + digit(fraction, 3) * 100
            + digit(fraction, 4) * 10
            + digit(fraction, 5),
    )
}

/// The least and the greatest delay in rounds: `A-B`, or `D` for `D-D`; A is at most B, and B at most 10,000. `None`
/// for any other text.
#[tactic(auto, unfolding(crate::specs::Parts::delay_of))]
fn delay(text: &[u8]) -> Option<(u32, u32)>
    ensures { result ≡ delay_of text.now }
{
    let (least, most) = words::cut(b'-', text).unwrap_or((text, text));
    let least = words::number(least)?;
    let most = words::number(most)?;
    if least > most || most > MOST_DELAY {
        return None;
    }
    Some((least as u32, most as u32))
}

/// `now`, if `before` is `None`; otherwise `None`.
fn once<T: Copy>(before: Option<T>, now: Option<T>) -> Option<T>
    ensures { result ≡ once before now }
{
    if before.is_some() { None } else { now }
}

impl Parts {
    /// No parts at all.
    const NONE: Parts = Parts {
        loss: None,
        repeat: None,
        delay: None,
    };

    /// These parts with one more: `loss=SHARE`, `repeat=SHARE` or `delay=ROUNDS`. `None` if that part is invalid or
    /// there already.
    #[tactic(auto, unfolding(crate::specs::Parts::with_part))]
    fn with(self, part: &[u8]) -> Option<Parts>
        ensures { result ≡ with_part self part.now }
    {
        let (name, value) = words::cut(b'=', part)?;
        if name == b"loss".as_slice() {
            let loss = once(self.loss, share(value))?;
            return Some(Parts {
                loss: Some(loss),
                ..self
            });
        }
        if name == b"repeat".as_slice() {
            let repeat = once(self.repeat, share(value))?;
            return Some(Parts {
                repeat: Some(repeat),
                ..self
            });
        }
        if name == b"delay".as_slice() {
            let delay = once(self.delay, delay(value))?;
            return Some(Parts {
                delay: Some(delay),
                ..self
            });
        }
        None
    }

    /// The channel of these parts; a missing part is 0.
    pub fn channel(self, seed: u64) -> Channel
        ensures { result ≡ channel_by self seed }
    {
        let (least, most) = self.delay.unwrap_or((0, 0));
        Channel {
            seed,
            loss: self.loss.unwrap_or(0),
            repeat: self.repeat.unwrap_or(0),
            least,
            most,
        }
    }
}

/// The parts of `loss=SHARE,repeat=SHARE,delay=ROUNDS`: one to three of these, each once at most and in any order.
///
/// # Errors
/// The text of the first part that is not valid, or that is repeated. After two valid parts, all the rest is one part.
#[tactic(auto, unfolding(crate::specs::Parts::parts_from))]
pub fn channel_parts(text: &[u8]) -> Result<Parts, &[u8]>
    ensures { result_ok result ≡ parts_of text.now }
{
    let mut parts = Parts::NONE;
    let mut rest = text;
    for _ in 0..2u64 {
        let Some((part, after)) = words::cut(b',', rest) else {
            return parts.with(rest).ok_or(rest);
        };
        let Some(more) = parts.with(part) else {
            return Err(part);
        };
        parts = more;
        rest = after;
    }
    parts.with(rest).ok_or(rest)
}
