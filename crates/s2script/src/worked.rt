//! Worked examples of the definitions.
ghost use Rattle.std.specs.Prelude.{◌≡◌, [], ◌∷◌, ◌++◌, codes, Some, None};
ghost use Rattle.s2script.specs.Lines.{lines, unended};
ghost use Rattle.s2script.specs.Words.{words};
ghost use Rattle.s2script.specs.Line.{line_of};
ghost use Rattle.s2script.specs.Named.{cell_named};
ghost use Rattle.s2script.specs.declared.refusal.Refusal.TheVariants.{Syntax, Cell as NoCell};
ghost use Rattle.s2script.specs.declared.command.Question.TheVariants.{Cell};
ghost use Rattle.s2script.specs.declared.command.Command.TheVariants.{Ask};
ghost use Rattle.s2script.specs.declared.command.Parsed.TheVariants.{Nothing, Does, Fails};

/// What the definitions say about the lines, words and cells of small scripts.
pub fn examples()
    // An empty line counts, and what follows the last newline counts unless it is empty.
    ensures empty_script { lines [] ≡ [] }
    ensures three_lines { lines (codes "a" ++ 10 ∷ 10 ∷ codes "b") ≡ codes "a" ∷ [] ∷ codes "b" ∷ [] }
    ensures ended { lines (codes "a" ++ 10 ∷ []) ≡ codes "a" ∷ [] }
    ensures unended { unended (codes "a" ++ 10 ∷ codes "b") ≡ codes "b" }
    ensures blanks { words (codes "  cell  0C00 ") ≡ codes "cell" ∷ codes "0C00" ∷ [] }
    ensures token { cell_named (codes "0C00") ≡ Some 0x0c00_0000_0000_0000 }
    ensures debug_text { cell_named (codes "3/021") ≡ Some 0x64c0_0000_0000_0000 }
    ensures no_digit { cell_named (codes "X") ≡ None }
    ensures face_6 { cell_named (codes "c") ≡ None }
    ensures odd_place { cell_named (codes "2") ≡ None }
    ensures too_long { cell_named (codes "10000000000000001") ≡ None }
    ensures face_6_text { cell_named (codes "6/") ≡ None }
    ensures carriage_return { line_of (codes "cell 1" ++ 13 ∷ []) ≡ Does (Ask (Cell 0x1000_0000_0000_0000)) }
    ensures comment { line_of (codes "#cell 1") ≡ Nothing }
    ensures no_comment { line_of (codes " # x") ≡ Fails Syntax }
    ensures missing_word { line_of (codes "cell") ≡ Fails Syntax }
    ensures left_to_right { line_of (codes "cell x y") ≡ Fails NoCell }
    ensures too_many_words { line_of (codes "cell 1 y") ≡ Fails Syntax }
{}
