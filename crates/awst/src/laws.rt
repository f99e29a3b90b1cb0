ghost use Rattle.avm_state.specs.declared.call.Call.{Call};
ghost use Rattle.avm_state.specs.LedgerState.{LedgerState};
ghost use Rattle.runs.specs.Moments.{Lasts};
ghost use Rattle.awst.specs.declared.contract.Contract.{Contract};
ghost use Rattle.awst.specs.Prescribed.{prescribed};

/// What a contract prescribes at a bound at which it ends is the same at every larger one; from bound to bound the price
/// and the need never fall, and the marks so far stay.
pub fn what_is_prescribed_lasts()
    ensures { (contract : Contract) (call : Call) (ledger : LedgerState) → Lasts (prescribed contract call ledger) }
{}
