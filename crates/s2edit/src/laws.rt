//! Laws that follow from the definitions of changes and of lists of edits.
ghost use Rattle.s2edit.specs.Edits.{LawOfRuns};
ghost use Rattle.s2edit.specs.Laws.{LawOfChanges};

/// The law of changes: a change can be reversed, and between two lists there is exactly one change.
pub fn law_of_changes()
    ensures { LawOfChanges }
{}

/// If memory never runs out, what a list of edits does is one function of the list and of the state of the editor.
pub fn law_of_runs()
    ensures { LawOfRuns }
{}
