//! Step-bounded meanings: what a run has seen so far, how it ended, when two meanings agree, and when one sees at most what the other does.
#![tactic(auto)]

ghost use Rattle.runs.specs.Marks.{IsPrefix, AreEqual};
ghost use Rattle.runs.specs.Moments.{Meaning, Lasts, OneEnd, Agrees, IsAtMost, IsNoDeeper};

/// A meaning that lasts ends in one way, with one list of marks, at all bounds at which it ends.
pub fn a_run_has_one_end()
    ensures { (m : Meaning) → Lasts m → OneEnd m }
{}

/// Agreement holds of a meaning and itself, both ways round, and from one to the next.
pub fn agreement_composes()
    ensures itself { (m : Meaning) → Agrees m m }
    ensures turns { (a b : Meaning) → Agrees a b → Agrees b a }
    ensures joins { (a b c : Meaning) → Agrees a b → Agrees b c → Agrees a c }
{}

/// A meaning sees at most what it sees itself, and from one to the next, with equal marks and with marks that are a prefix.
pub fn at_most_composes()
    ensures itself { (m : Meaning) → IsAtMost AreEqual m m }
    ensures joins { (a b c : Meaning) → IsAtMost AreEqual a b → IsAtMost AreEqual b c → IsAtMost AreEqual a c }
    ensures weaker { (a b : Meaning) → IsAtMost AreEqual a b → IsAtMost IsPrefix a b }
    ensures prefixes_join { (a b c : Meaning) → IsAtMost IsPrefix a b → IsAtMost IsPrefix b c → IsAtMost IsPrefix a c }
    ensures deeper_joins { (a b c : Meaning) → IsNoDeeper a b → IsNoDeeper b c → IsNoDeeper a c }
{}
