//! The words of a command.
ghost use Rattle.std.specs.Prelude.{◌≡◌, ℕ, ◌^◌, ◌<◌, ◌==◌, ◌&&◌, List, length, Some, is_some};
ghost use Rattle.std.specs.Fmt.{decimal};
ghost use Rattle.tora_lines.specs.Words.{number_of};
ghost use Rattle.tora_node.specs.CommandText.{is_word};

use tora_lines::after;

/// Whether a text is this word.
#[tactic(auto, unfolding(crate::specs::CommandText::is_word))]
pub fn is_word(word: &[u8], text: &[u8]) -> bool
    ensures { result ≡ is_word word.now text.now }
{
    text.len() == word.len() && after(word, text).is_some()
}

/// A text is read as the number n exactly if it is n in decimal digits, without a sign or leading zeros, and n is below
/// 2^64. The function does nothing: its contract is a law.
pub fn commands_are_read_as_written()
    ensures prints { (text : List ℕ) (n : ℕ) → number_of text ≡ Some n → (text ≡ decimal n) × (n < 2 ^ 64) }
    ensures again { (n : ℕ) → n < 2 ^ 64 → number_of (decimal n) ≡ Some n }
{}
