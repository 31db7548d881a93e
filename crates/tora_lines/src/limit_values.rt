//! The values of the limits of files of lines: other contracts cite the limits by name.
ghost use Rattle.std.specs.Prelude.{◌≡◌, ◌^◌};
ghost use Rattle.tora_lines.specs.declared.session.TheConstants.{LONGEST_LINE};
ghost use Rattle.tora_lines.specs.declared.engine.TheConstants.{MOST_READS};

/// The limits have these values.
pub fn limits_have_their_values()
    ensures longest_line { LONGEST_LINE ≡ 4096 }
    ensures most_reads { MOST_READS ≡ 2 ^ 32 }
{}
