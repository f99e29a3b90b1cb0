ghost use Rattle.std.specs.Prelude.{◌≡◌, ℕ, ◌<◌, ◌^◌, List, Ok, length};
ghost use Rattle.avm_asm.specs.Assembled.{assembled};
ghost use Rattle.avm_asm.specs.declared.line.Line.{Line};
ghost use Rattle.avm_ops.specs.Code.{AreBytes};
ghost use Rattle.avm_run.specs.Form.{IsWellFormed};
ghost use Rattle.teal_text.specs.Printing.{text_of};
ghost use Rattle.teal_text.specs.Reading.{read_of};

/// The printed text of a well-formed program is read as lines, and these lines are assembled to the same program.
pub fn printed_text_is_read_back()
    ensures { (code : List ℕ) → AreBytes code → IsWellFormed code → length code < 2 ^ 64 → (ls : List Line) × (read_of (text_of code) ≡ Ok ls) × (assembled ls ≡ Ok code) }
{}
