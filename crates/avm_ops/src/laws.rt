ghost use Rattle.std.specs.Prelude.{◌≡◌, ℕ, ◌+◌, ◌-◌, ◌*◌, ◌<◌, ◌≤◌, ◌++◌, List, Ok, length, take, drop};
ghost use Rattle.avm_ops.specs.declared.instr.Instr.{Instr};
ghost use Rattle.avm_ops.specs.Numbers.{square_root};
ghost use Rattle.avm_ops.specs.Code.{decoded, decoded_at, AreBytes, HasForm, instr_bytes, IsSpeltAt};

/// What an instruction is spelled as is read as that instruction, whatever follows it.
pub fn spelling_is_read()
    ensures { (i : Instr) (pc : ℕ) (rest : List ℕ) → HasForm i → decoded pc (instr_bytes i ++ rest) ≡ Ok (i, pc + length (instr_bytes i)) }
{}

/// There is no second spelling: bytes that are read as an instruction are what it is spelled as, and
/// its immediates have its row's form.
pub fn spelling_is_the_only_one()
    ensures { (code : List ℕ) (pc : ℕ) (i : Instr) (next : ℕ) → AreBytes code → decoded_at code pc ≡ Ok (i, next) → IsSpeltAt code pc i next }
{}

/// The square root that the machine computes is the greatest number whose square isn't greater.
pub fn square_root_is_greatest()
    ensures { (n : ℕ) → (square_root n * square_root n ≤ n) × (n < (square_root n + 1) * (square_root n + 1)) }
{}
