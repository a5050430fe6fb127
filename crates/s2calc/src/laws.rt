//! Laws about the definitions.
ghost use Rattle.s2calc.specs.Laws.{TellsWhole, NothingHeld, OneRun, CountsFailures, FilesStay};
ghost use Rattle.s2calc.specs.LawsScripts.{OneEnd, OneEndOfInput, OneEndOfOutput, LawOfUndo, LawOfRedo};
ghost use Rattle.s2calc.specs.LawsScripts.{RestoreGivesBack, LoadsWhatWasFound, AsksOnce};
ghost use Rattle.s2calc.specs.LawsStored.{KeepsOrdinary, StoredComesBack};

/// If the reader exposes its bytes, a run that finishes has carried out the lines of exactly these bytes.
pub fn whole_script()
    ensures { TellsWhole }
{}

/// Where nothing waits in a buffer, as after a run that ends with Ok or `Input`, what was written has reached the
/// writer below.
pub fn nothing_held()
    ensures { NothingHeld }
{}

/// If no line runs out of memory or meets a failed shelf, a script has one run from each state and shelf: its answers,
/// and the state and the files that it leaves, are a function of the state, the shelf and the bytes of the script.
pub fn one_run()
    ensures { OneRun }
{}

/// A run has as many answers `error file` as the shelf's count of failures rose.
pub fn counted_failures()
    ensures { CountsFailures }
{}

/// Only a command with a file changes a file, or finds one.
pub fn files_stay()
    ensures { FilesStay }
{}

/// If no line is answered `error memory` or `error file`, whole runs of the same bytes have one end: what is written,
/// the tally, the state and the known files are one function of the script, the first state and the first files.
pub fn one_end()
    ensures { OneEnd }
{}

/// If no line is answered `error memory` or `error file`, runs whose reading stopped at the same byte have one end.
pub fn one_end_of_input()
    ensures { OneEndOfInput }
{}

/// If no line is answered `error memory` or `error file`, runs whose writers failed at the same byte of the answers
/// have one end.
pub fn one_end_of_output()
    ensures { OneEndOfOutput }
{}

/// As far as the history reaches, undo gives each earlier table back, list for list and byte for byte.
pub fn undo_goes_back()
    ensures { LawOfUndo }
{}

/// As far as there are undone states, redo gives each back, and takes back as many undos. Undos and redos leave all
/// states, in their order of time.
pub fn redo_goes_ahead()
    ensures { LawOfRedo }
{}

/// A `load` is right for the bytes that the shelf handed over in its line, whatever was found before.
pub fn loads_what_was_found()
    ensures { LoadsWhatWasFound }
{}

/// A line with a file makes one call of the shelf, or opens a file and closes it again, all under the name that it
/// says.
pub fn asks_once()
    ensures { AsksOnce }
{}

/// `restore` gives back what `dump` wrote, in the same editor or another one with its limit and depth.
pub fn restore_gives_back()
    ensures { RestoreGivesBack }
{}

/// From a state that is so, each state has normalized lists that keep to the limit, and keeps to the depth.
pub fn states_stay_ordinary()
    ensures { KeepsOrdinary }
{}

/// Lines that find the bytes which an earlier line stored give back what it stored, over any shelf that lists what it
/// stored and found, as the program's does. A `load` of the bytes that a `save` stored gives the register the list of
/// the saved one, or answers `error too-many`. A `restore` of those that a `dump` stored gives the dumped state. Lines
/// that answer `error memory` or `error file` are left out.
pub fn stored_comes_back()
    ensures { StoredComesBack }
{}
