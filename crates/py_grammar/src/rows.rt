//! Worked rows of the grammar. Each function states what the parser makes of some symbols, and does nothing.

ghost use Rattle.std.specs.Prelude.{◌≡◌, Bool, true, false, List, [], ◌∷◌, Option, Some, None};
ghost use Rattle.py_grammar.specs.declared.symbol.Sym.TheVariants as sym;
ghost use Rattle.py_grammar.specs.declared.expression.Tree.TheVariants as tree;
ghost use Rattle.py_grammar.specs.declared.expression.Arg.TheVariants as arg;
ghost use Rattle.py_grammar.specs.declared.expression.BinaryOp.TheVariants as op;
ghost use Rattle.py_grammar.specs.declared.expression.CompareOp.TheVariants as compare;
ghost use Rattle.py_grammar.specs.declared.expression.UnaryOp.TheVariants as unary;
ghost use Rattle.py_grammar.specs.declared.statement.Stmt.TheVariants as stmt;
ghost use Rattle.py_grammar.specs.declared.statement.Block.TheVariants as block;
ghost use Rattle.py_grammar.specs.Parts.{Part};
ghost use Rattle.py_grammar.specs.Parser.{took, stuck};
ghost use Rattle.py_grammar.specs.Flow.{full};
ghost use Rattle.py_grammar.specs.Rows.{place, from, word, name, number, pass};

/// `-a ** b` is `-(a ** b)`, `a ** b ** c` is `a ** (b ** c)`, `a - b - c` is `(a - b) - c`, `a + b * c` is `a + (b * c)`, and
/// `not a in b` is `not (a in b)`.
pub fn operators_bind()
    ensures minus { full Part.Expr (from 1 (sym.Minus ∷ sym.Name ∷ sym.Power ∷ sym.Name ∷ sym.End ∷ [])) ≡ took (tree.Unary (place 1) unary.Minus (tree.Power (place 2) (name 2) (name 4))) (from 5 (sym.End ∷ [])) }
    ensures powers { full Part.Expr (from 1 (sym.Name ∷ sym.Power ∷ sym.Name ∷ sym.Power ∷ sym.Name ∷ sym.End ∷ [])) ≡ took (tree.Power (place 1) (name 1) (tree.Power (place 3) (name 3) (name 5))) (from 6 (sym.End ∷ [])) }
    ensures sums { full Part.Expr (from 1 (sym.Name ∷ sym.Minus ∷ sym.Name ∷ sym.Minus ∷ sym.Name ∷ sym.End ∷ [])) ≡ took (tree.Binary (place 1) op.Sub (tree.Binary (place 1) op.Sub (name 1) (name 3)) (name 5)) (from 6 (sym.End ∷ [])) }
    ensures products { full Part.Expr (from 1 (sym.Name ∷ sym.Plus ∷ sym.Name ∷ sym.Star ∷ sym.Name ∷ sym.End ∷ [])) ≡ took (tree.Binary (place 1) op.Add (name 1) (tree.Binary (place 3) op.Mul (name 3) (name 5))) (from 6 (sym.End ∷ [])) }
    ensures denial { full Part.Expr (from 1 (sym.Not ∷ sym.Name ∷ sym.In ∷ sym.Name ∷ sym.End ∷ [])) ≡ took (tree.Unary (place 1) unary.Not (tree.Compare (place 2) compare.In (name 2) (name 4))) (from 5 (sym.End ∷ [])) }
{}

/// `(a)`, `(a,)`, `()`, `f(a,)`, `a[b,]` and `a[b:]`: a tree keeps whether a comma stands behind the last.
pub fn commas_are_kept()
    ensures one { full Part.Expr (from 1 (sym.LParen ∷ sym.Name ∷ sym.RParen ∷ sym.End ∷ [])) ≡ took (tree.Paren (place 1) (name 2 ∷ []) false) (from 4 (sym.End ∷ [])) }
    ensures tuple { full Part.Expr (from 1 (sym.LParen ∷ sym.Name ∷ sym.Comma ∷ sym.RParen ∷ sym.End ∷ [])) ≡ took (tree.Paren (place 1) (name 2 ∷ []) true) (from 5 (sym.End ∷ [])) }
    ensures none { full Part.Expr (from 1 (sym.LParen ∷ sym.RParen ∷ sym.End ∷ [])) ≡ took (tree.Paren (place 1) [] false) (from 3 (sym.End ∷ [])) }
    ensures call { full Part.Expr (from 1 (sym.Name ∷ sym.LParen ∷ sym.Name ∷ sym.Comma ∷ sym.RParen ∷ sym.End ∷ [])) ≡ took (tree.Call (place 1) (name 1) (arg.Plain (name 3) ∷ []) true) (from 6 (sym.End ∷ [])) }
    ensures index { full Part.Expr (from 1 (sym.Name ∷ sym.LBracket ∷ sym.Name ∷ sym.Comma ∷ sym.RBracket ∷ sym.End ∷ [])) ≡ took (tree.Index (place 1) (name 1) (name 3 ∷ []) true) (from 6 (sym.End ∷ [])) }
    ensures slice { full Part.Expr (from 1 (sym.Name ∷ sym.LBracket ∷ sym.Name ∷ sym.Colon ∷ sym.RBracket ∷ sym.End ∷ [])) ≡ took (tree.Slice (place 1) (name 1) (Some (name 3)) None) (from 6 (sym.End ∷ [])) }
{}

/// `f(a=1)` has an argument by keyword; `f((a)=1)` stops at `=`.
pub fn keywords_are_names()
    ensures keyword { full Part.Expr (from 1 (sym.Name ∷ sym.LParen ∷ sym.Name ∷ sym.Assign ∷ sym.Number ∷ sym.RParen ∷ sym.End ∷ [])) ≡ took (tree.Call (place 1) (name 1) (arg.Keyed (word 3) (number 5) ∷ []) false) (from 7 (sym.End ∷ [])) }
    ensures paren { full Part.Expr (from 1 (sym.Name ∷ sym.LParen ∷ sym.LParen ∷ sym.Name ∷ sym.RParen ∷ sym.Assign ∷ sym.Number ∷ sym.RParen ∷ sym.End ∷ [])) ≡ stuck (from 6 (sym.Assign ∷ sym.Number ∷ sym.RParen ∷ sym.End ∷ [])) }
{}

/// `elif` belongs to the `if` of its own column.
pub fn elif_belongs_to_its_if()
    ensures inner { full Part.Stmt (from 1 (sym.If ∷ sym.Name ∷ sym.Colon ∷ sym.Newline ∷ sym.Indent ∷ sym.If ∷ sym.Name ∷ sym.Colon ∷ sym.Pass ∷ sym.Newline ∷ sym.Elif ∷ sym.Name ∷ sym.Colon ∷ sym.Pass ∷ sym.Newline ∷ sym.Dedent ∷ sym.End ∷ []))
        ≡ took (stmt.If (place 1) (name 2) (block.Lines (stmt.If (place 6) (name 7) (pass 9) (record { place = place 11; test = name 12; block = pass 14 } ∷ []) None ∷ [])) [] None) (from 17 (sym.End ∷ [])) }
    ensures outer { full Part.Stmt (from 1 (sym.If ∷ sym.Name ∷ sym.Colon ∷ sym.Newline ∷ sym.Indent ∷ sym.If ∷ sym.Name ∷ sym.Colon ∷ sym.Pass ∷ sym.Newline ∷ sym.Dedent ∷ sym.Elif ∷ sym.Name ∷ sym.Colon ∷ sym.Pass ∷ sym.Newline ∷ sym.End ∷ []))
        ≡ took (stmt.If (place 1) (name 2) (block.Lines (stmt.If (place 6) (name 7) (pass 9) [] None ∷ [])) (record { place = place 12; test = name 13; block = pass 15 } ∷ []) None) (from 17 (sym.End ∷ [])) }
{}

/// `return (1 +)` stops at `)`, `1 < 2 < 3` at the second `<`, and `x = y` in a module at `y`.
pub fn parser_stops()
    ensures operand { full Part.Stmt (from 1 (sym.Return ∷ sym.LParen ∷ sym.Number ∷ sym.Plus ∷ sym.RParen ∷ sym.Newline ∷ [])) ≡ stuck (from 5 (sym.RParen ∷ sym.Newline ∷ [])) }
    ensures chain { full Part.Stmt (from 1 (sym.Number ∷ sym.Less ∷ sym.Number ∷ sym.Less ∷ sym.Number ∷ sym.Newline ∷ [])) ≡ stuck (from 4 (sym.Less ∷ sym.Number ∷ sym.Newline ∷ [])) }
    ensures constant { full Part.Module (from 1 (sym.Name ∷ sym.Assign ∷ sym.Name ∷ sym.Newline ∷ sym.End ∷ [])) ≡ stuck (from 3 (sym.Name ∷ sym.Newline ∷ sym.End ∷ [])) }
{}
