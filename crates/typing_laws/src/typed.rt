//! The typed contracts of a module that breaks no rule are there.

ghost use Rattle.std.specs.Prelude.{◌≡◌, List, None, Some};
ghost use Rattle.awst.specs.declared.contract.Contract.{Contract};
ghost use Rattle.path_rules.specs.Rules.{IsFirst};
ghost use Rattle.py_grammar.specs.declared.module.Module.{Module};
ghost use Rattle.type_check.specs.Whole.{IsBrokenIn, typed};
ghost use Rattle.typing_laws.specs.Naming.{MeansSomething};

/// A module in which each name means something, and that breaks no rule, has typed contracts: none of them is missing for
/// a reason that no rule tells.
pub fn unbroken_modules_are_typed()
    ensures { (m : Module) → MeansSomething m → IsFirst (IsBrokenIn m) None → (cs : List Contract) × (typed m ≡ Some cs) }
{}
