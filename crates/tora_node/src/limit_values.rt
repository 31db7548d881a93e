//! The values of the limits of a node's commands: other contracts cite the limits by name.
ghost use Rattle.std.specs.Prelude.{◌≡◌};
ghost use Rattle.tora_node.specs.declared.commands.TheConstants.{LONGEST_COMMAND};

/// The value of the limit. The function does nothing: its contract is a law.
pub fn limits_have_their_values()
    ensures longest_command { LONGEST_COMMAND ≡ 4096 }
{}
