//! Prefixes of texts.
ghost use Rattle.std.specs.Prelude.{◌≡◌, ◌≤◌, IfSome, length};
ghost use Rattle.std.specs.Option.{option_map};
ghost use Rattle.tora_lines.specs.Fronts.{after};
ghost use Rattle.tora_lines.specs.Gives.{Gives};

use crate::words::LineError;

/// The text after the prefix `front`; `None` if the text does not begin with it.
#[tactic(auto, unfolding(crate::specs::Fronts::after))]
pub fn after<'a>(front: &[u8], text: &'a [u8]) -> Option<&'a [u8]>
    ensures rest { option_map (λ rest. rest.now) result ≡ after front.now text.now }
    ensures shorter { IfSome result (λ rest. length rest.now ≤ length text.now) }
{
    if text.starts_with(front) {
        Some(&text[front.len()..])
    } else {
        None
    }
}

/// The text after the prefix `front`.
///
/// # Errors
/// `Fault` if the text does not begin with `front`.
pub fn behind<'a>(front: &[u8], text: &'a [u8]) -> Result<&'a [u8], LineError>
    ensures { Gives (λ rest. rest.now) result (after front.now text.now) }
{
    match after(front, text) {
        Some(rest) => Ok(rest),
        None => Err(LineError::Fault),
    }
}
