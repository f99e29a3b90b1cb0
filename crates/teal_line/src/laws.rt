ghost use Rattle.teal_line.specs.declared.statement.Statement.{Statement};
ghost use Rattle.teal_line.specs.Printing.{IsStatement};
ghost use Rattle.teal_line.specs.ReadsBack.{IsOfBytes, ReadsBack};

/// What is printed for a statement is cut into words that say this statement; it is of printable ASCII, and no pragma.
pub fn statements_read_back()
    ensures { (s : Statement) → IsStatement s → IsOfBytes s → ReadsBack s }
{}
