//! A law of linking, which readers find here by name.

ghost use Rattle.std.specs.Prelude.{◌≡◌, ℕ, ◌+◌, option_map};
ghost use Rattle.paris_code.specs.declared.instr.Instr.{Instr};
ghost use Rattle.paris_code.specs.Rows.{target_of};
ghost use Rattle.cstar_link.specs.Linked.{moved_by};

/// Linking moves the target of each jump by where its unit begins, and gives no other instruction one.
pub fn targets_move()
    ensures { (start : ℕ) (instr : Instr) → target_of (moved_by start instr) ≡ option_map (λ target. target + start) (target_of instr) }
{}
