//! The times of a world's link ends, as a word of the command line.
ghost use Rattle.std.specs.Prelude.{◌≡◌, ◌<◌, IfSome, option_map};
ghost use Rattle.tora_arq.specs.Settings.{IsTimes};
ghost use Rattle.tora_commands.specs.TimesWord.{positive_of, times_of, asked_times};

use tora_arq::{Times, standard_times};
use tora_lines::words;

/// The number in a text, without leading zeros; `None` if the text is not a number from 1 to 2^64 - 1.
#[tactic(auto, unfolding(crate::specs::TimesWord::positive_of))]
fn positive(text: &[u8]) -> Option<u64>
    ensures value { result ≡ positive_of text.now }
    ensures positive { IfSome result (λ n. 0 < n) }
{
    let n = words::number(text)?;
    if 0 < n { Some(n) } else { None }
}

/// The times in `HELLO,SILENCE,RETRY,TRIES`: four numbers, each at least 1 and below 2^64, without leading zeros.
/// `None` for any other text.
#[tactic(auto, unfolding(crate::specs::TimesWord::times_of))]
fn times(text: &[u8]) -> Option<Times>
    ensures value { result ≡ times_of text.now }
    ensures times { IfSome result (λ t. IsTimes t) }
{
    let (hello, rest) = words::cut(b',', text)?;
    let hello = positive(hello)?;
    let (silent, rest) = words::cut(b',', rest)?;
    let silent = positive(silent)?;
    let (retry, tries) = words::cut(b',', rest)?;
    let retry = positive(retry)?;
    let tries = positive(tries)?;
    Some(Times {
        hello,
        silent,
        retry,
        tries,
    })
}

/// The times that a word gives; the standard times if there is no word. `None` if the word is malformed.
pub fn asked_times(word: Option<&str>) -> Option<Times>
    ensures value { result ≡ asked_times (option_map (λ w. w.now) word.entry) }
    ensures times { IfSome result (λ t. IsTimes t) }
{
    match word {
        None => {
            standard_times();
            Some(Times::STANDARD)
        }
        Some(word) => times(word.as_bytes()),
    }
}
