//! Lines of output.
ghost use Rattle.std.specs.Prelude.{◌≡◌, ◌++◌, OnOk, string_bytes};
ghost use Rattle.tora_lines.specs.LineText.{numbered};

use std::alloc::AllocError;

/// Appends `word`, the number in decimal digits and a line feed to a text, with nothing between them.
pub fn numbered(out: &mut String, word: &str, number: u64) -> Result<(), AllocError>
    ensures { OnOk result (string_bytes out.new ≡ string_bytes out.old ++ numbered word.now number) }
{
    writeln!(out, "{word}{number}")
}
