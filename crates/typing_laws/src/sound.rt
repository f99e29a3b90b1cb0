//! The typed contracts of a module that breaks no rule.

ghost use Rattle.std.specs.Prelude.{List, Ok};
ghost use Rattle.std.specs.List.{All};
ghost use Rattle.awst.specs.Sound.{IsSoundContract};
ghost use Rattle.awst.specs.declared.contract.Contract.{Contract};
ghost use Rattle.py_grammar.specs.declared.module.Module.{Module};
ghost use Rattle.type_check.specs.Whole.{Checks};

/// The contracts that may be answered for a module are sound: each name in them names something, each node has the parts
/// and the type that its kind asks for, each variable is read only where every path has assigned it, no path reaches the
/// end of a function that has a result, and both programs are functions without parameters that give UInt64 or bool.
pub fn checked_contracts_are_sound()
    ensures { (m : Module) (cs : List Contract) → Checks m (Ok cs) → All IsSoundContract cs }
{}
