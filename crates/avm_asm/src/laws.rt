ghost use Rattle.std.specs.Prelude.{◌≡◌, ℕ, ◌+◌, List, ◌∷◌, ◌++◌, Ok, Some, length};
ghost use Rattle.avm_ops.specs.declared.instr.Instr.{Instr};
ghost use Rattle.avm_ops.specs.Code.{decoded_at, HasForm};
ghost use Rattle.avm_asm.specs.declared.line.Line.{Line};
ghost use Rattle.avm_asm.specs.Listing.{AreLines, instr_in, line_size, lines_size};
ghost use Rattle.avm_asm.specs.Assembled.{assembled, code_size, symbols_of};

use avm_ops::spelling_is_read;

/// The code of lines has the length that `size` counts.
pub fn code_has_its_size()
    ensures { (ls : List Line) (code : List ℕ) → assembled ls ≡ Ok code → length code ≡ code_size ls }
{}

/// In the code of lines the instruction that a line becomes is read at the line's place, and the
/// place after it is the next line's; and it has its row's form.
pub fn lines_are_read_back()
    ensures read { (ls before after : List Line) (l : Line) (code : List ℕ) (i : Instr) → AreLines ls → ls ≡ before ++ l ∷ after → assembled ls ≡ Ok code → instr_in (symbols_of ls) (1 + lines_size before + line_size l) l ≡ Some i → decoded_at code (1 + lines_size before) ≡ Ok (i, 1 + lines_size before + line_size l) }
    ensures form { (ls before after : List Line) (l : Line) (code : List ℕ) (i : Instr) → AreLines ls → ls ≡ before ++ l ∷ after → assembled ls ≡ Ok code → instr_in (symbols_of ls) (1 + lines_size before + line_size l) l ≡ Some i → HasForm i }
{
    spelling_is_read();
}
