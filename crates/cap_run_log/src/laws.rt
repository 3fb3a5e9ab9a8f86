//! Laws about lines: functions that do nothing, and whose contracts are the laws.

ghost use Rattle.std.specs.Prelude.{◌≡◌, ◌↔◌, ℕ, List};
ghost use Rattle.cap_log.specs.{declared.lines.Line.Line, Lines.Spells};
ghost use Rattle.cap_run_log.specs.{declared.lines.RunLine.RunLine, RunLines.SpellsRun, UsualLines.{IsUsualLine, as_run}};

/// The lines that logs have are lines of run logs: bytes that spell one of a log spell it in a run log, and bytes that spell
/// in a run log a line that logs have, too, spell it in a log.
pub fn usual_lines_are_run_lines()
    ensures spelled { (bytes : List ℕ) (line : Line) → Spells bytes line ↔ SpellsRun bytes (as_run line) }
    ensures read { (bytes : List ℕ) (line : RunLine) → SpellsRun bytes line → IsUsualLine line
        → (usual : Line) × Spells bytes usual × (line ≡ as_run usual) }
{}
