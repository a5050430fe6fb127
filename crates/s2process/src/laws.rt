//! Laws about what the program did.
ghost use Rattle.s2process.specs.Laws.{AllAnswered, GivesBack, OneOutput};

use crate::folders::Folders;

/// A run of a script that ends with status 0 has answered all lines of the script, and refused none. The script is all
/// that the input gave, up to its end; the output took all answers, and nothing else, and was flushed; no call of it
/// failed. So nothing waits, and nothing is lost.
pub fn all_answered<R, W, E, F: Folders>()
    ensures { AllAnswered R W E F F.Folder.files F.opened }
{}

/// The bytes of its script and those that it finds in files fix what the process writes, however the reads are cut, and
/// wherever a read, a write or a flush fails. Of two runs of one script from one state of the editor, one carried out
/// the first lines of the other: with the same replies, asking the folder for the same files, and storing the same
/// bytes in the same files. The bytes that the one output took are a beginning of those that the other took, and so are
/// the notes, if both runs explain. Both outputs took the same, and the status is the same, if both runs came to the
/// end, or if the reads of both stopped at the same byte.
///
/// The law is about runs in which no line is answered `error memory` or `error file`, and which find the same in files.
/// They do if there is one content, or none, that the folder has to hand over each time that it is asked for a file:
/// whatever each run reads of it, all of it or a beginning, as a `restore` does that is refused. For a `load` this
/// content is what it gets, at most a byte more than the longest union file has. The paths of the folders and what else
/// they hold don't matter.
pub fn one_output<R, W, E, F: Folders>()
    ensures { OneOutput R W E F F.Folder.files F.opened }
{}

/// Lines that find the bytes which an earlier line stored give back what it stored. A `load` of the bytes that a `save`
/// stored, in the same run or another, gives its register the list that the saved one had, or answers `error too-many`
/// if a register may not have as many cells. A `restore` of the bytes that a `dump` stored, in an editor of the same
/// limit and depth, gives the dumped state. Lines that answer `error memory` or `error file` are left out.
///
/// Whether a folder that was given bytes has them later isn't known: it is said of a `load` or a `restore` that found
/// them. The names of the two files may differ, as if a file was moved.
pub fn files_give_back<R, W, E, F: Folders>()
    ensures { GivesBack R W E F F.Folder.files F.opened }
{}
