//! A folder as a shelf.
ghost use Rattle.std.specs.Prelude.{◌≡◌, ◌≢◌, ◌↔◌, [], ◌++◌, IfErr, IfOk, IfSome, IsOk, MatchResult, OnOk};
ghost use Rattle.std.specs.Prelude.{Some, None, Ok, Err, IsErrOf, true, option_map};
ghost use Rattle.std.specs.Fs.{IsFile, file_type};
ghost use Rattle.std.specs.IoError.{error_kind};
ghost use Rattle.std.specs.String.{string_bytes};
ghost use Rattle.s2shelf.specs.OpenedFile.{name_of, given, has_failed};
ghost use Rattle.s2shelf.specs.Shelf.{Opens, Closes, Fails, FailsToClose, FailsToGet, FailsToPut, FindsBeginning};
ghost use Rattle.s2shelf.specs.Shelf.{PutsFile, count_after, one_more};
ghost use Rattle.s2shelf.specs.FileCalls as file;
ghost use Rattle.s2shelf.specs.FileCalls.{Makes, path_to, reading};
ghost use Rattle.s2shelf.specs.DirShelf.{calls_of_folder, folder_files, folder_path, IsRead, IsWritten};
ghost use Rattle.s2shelf.specs.Working.Files.{calls_so_far, OpensFile, ReadsFile, StoresFile};

use crate::files::ListedFiles;
use crate::opened_file::OpenedFile;
use crate::shelf::{Shelf, ShelfFault, beginning_of, count_failure};
use std::alloc::AllocError;
use std::fs::Metadata;
use std::io;
use std::io::ErrorKind;
use std::rt::Files;

/// A folder of files. It doesn't expose its contents, which are what the system gives.
///
/// The file NAME is at `PATH/NAME`, literally, and nothing else is touched: each call of the system's files stands in a
/// list that only clauses read. A file that the system doesn't find is
/// absent, also if the folder is. A call that reads answers `Memory` if the system is out of memory. Every other fault
/// of the system, and each in a `put`, is `Device`: a file that may not be read, a full disk, or a `put` into an absent
/// folder. A name of anything but a regular file, such as a folder, a FIFO or a device, is `Device` too, and is not
/// opened. If it takes the place of a file just before the opening, it is not read, but a `put` may write to it, and
/// opening a FIFO waits for its other end. A symbolic link stands for what it leads to, also outside the folder.
#[derive(Drop)]
pub struct DirShelf<R: Files + AllocGlobal> {
    files: ListedFiles<R>,
    path: String,
    failures: u64,
}

impl<R: Files + AllocGlobal> DirShelf<R> {
    /// The folder at a path, accessed through a runtime that the shelf keeps (`&rt` if the caller needs it too). The
    /// folder isn't looked at before the first call.
    pub fn at(rt: R, path: &str) -> Result<DirShelf<R>, AllocError>
    where
        R: Drop,
        ensures path { IfOk result (λ shelf. folder_path shelf ≡ path.now) }
        ensures failures { IfOk result (λ shelf. (folder_files shelf).failures ≡ 0) }
        ensures calls { IfOk result (λ shelf. calls_of_folder shelf ≡ []) }
    {
        let path = String::from_str(rt.alloc(), path)?;
        Ok(DirShelf {
            files: ListedFiles::new(rt),
            path,
            failures: 0,
        })
    }

    /// The path of the file with that name.
    fn path_of(&self, name: &str) -> Result<String, AllocError>
        ensures { IfOk result (λ path. string_bytes path ≡ path_to (folder_path self.now) name.now) }
    {
        let path = self.path.as_str();
        format!(in self.files.alloc(); "{path}/{name}")
    }
}

/// What an error of the system in a call that reads means.
fn read_fault(error: io::Error, failures: &mut u64) -> ShelfFault
    ensures memory { error_kind error ≡ ErrorKind.OutOfMemory → result ≡ ShelfFault.Memory }
    ensures device { error_kind error ≢ ErrorKind.OutOfMemory → result ≡ ShelfFault.Device }
    ensures count { failures.new ≡ count_after result failures.old }
{
    match error.kind() {
        ErrorKind::OutOfMemory => ShelfFault::Memory,
        _ => count_failure(failures),
    }
}

/// What the answer of the system to the opening of a file means. Only here an error means that there is no file.
fn open_answer<T: Drop>(answer: io::Result<T>, failures: &mut u64) -> Result<Option<T>, ShelfFault>
    ensures found { IfOk answer (λ found. result ≡ Ok (Some found)) }
    ensures same { IfOk result (λ found. IfSome found (λ value. answer ≡ Ok value)) }
    ensures missing { IfErr answer (λ error. error_kind error ≡ ErrorKind.NotFound → result ≡ Ok None) }
    ensures memory { IfErr answer (λ error. error_kind error ≡ ErrorKind.OutOfMemory
        → result ≡ Err ShelfFault.Memory) }
    ensures device { IfErr answer (λ error. error_kind error ≢ ErrorKind.NotFound
        → error_kind error ≢ ErrorKind.OutOfMemory → result ≡ Err ShelfFault.Device) }
    ensures count { MatchResult result (λ _. failures.new ≡ failures.old)
        (λ fault. failures.new ≡ count_after fault failures.old) }
{
    match answer {
        Ok(found) => Ok(Some(found)),
        Err(error) if error.kind() == ErrorKind::NotFound => Ok(None),
        Err(error) => Err(read_fault(error, failures)),
    }
}

/// What the answer of the system to a call that writes means. Each of its errors is a failure of the device, since the
/// file may have lost its content.
fn write_answer(answer: io::Result<()>, failures: &mut u64) -> Result<(), ShelfFault>
    ensures written { IfOk answer (λ _. IsOk result × (failures.new ≡ failures.old)) }
    ensures device { IfErr answer (λ _. (result ≡ Err ShelfFault.Device) × (failures.new ≡ one_more failures.old)) }
{
    match answer {
        Ok(()) => Ok(()),
        Err(_) => Err(count_failure(failures)),
    }
}

/// Refuses anything but a regular file.
fn check_regular(found: &Metadata) -> io::Result<()>
    ensures { IsOk result ↔ IsFile (file_type found.now) }
{
    if found.is_file() {
        Ok(())
    } else {
        Err(io::Error::from(ErrorKind::InvalidInput))
    }
}

/// A regular file, opened for reading. It is looked at before it is opened, since opening a FIFO waits, and again
/// afterwards, since something else may have taken its place.
fn open_regular<R: Files + AllocGlobal>(
    files: &mut ListedFiles<R>,
    path: &str,
) -> io::Result<R::File>
    ensures { Makes (calls_so_far files.old) (calls_so_far files.new) (OpensFile path.now result) }
{
    check_regular(&files.look(path)?)?;
    let file = files.open(path)?;
    match is_regular(files.look_again(path, &file)) {
        Ok(()) => Ok(file),
        Err(error) => {
            files.close(path, file);
            Err(error)
        }
    }
}

/// Refuses anything but a regular file, or what couldn't be looked at.
fn is_regular(found: io::Result<Metadata>) -> io::Result<()> {
    check_regular(&found?)
}

/// The first `most` bytes of a file that was opened, which is closed.
fn read_opened<R: Files + AllocGlobal>(
    files: &mut ListedFiles<R>,
    path: &str,
    mut file: R::File,
    most: usize,
) -> io::Result<Vec<u8>>
    ensures calls { Makes (calls_so_far files.old) (calls_so_far files.new) (ReadsFile (λ v. v.items) path.now result) }
    ensures read { IfOk result (λ bytes. IsRead R.File.remaining most bytes.items) }
{
    let mut bytes = Vec::new(files.alloc());
    let result = files.read(path, &mut file, most, &mut bytes);
    files.close(path, file);
    result?;
    Ok(bytes)
}

/// Refuses to overwrite anything but a regular file.
fn check_place(found: io::Result<Metadata>) -> io::Result<()> {
    match found {
        Ok(found) => check_regular(&found),
        Err(error) if error.kind() == ErrorKind::NotFound => Ok(()),
        Err(error) => Err(error),
    }
}

/// Overwrites a regular file, or creates one.
fn write_whole<R: Files + AllocGlobal>(
    files: &mut ListedFiles<R>,
    path: &str,
    bytes: &[u8],
) -> io::Result<()>
    ensures calls { Makes (calls_so_far files.old) (calls_so_far files.new) (StoresFile path.now bytes.now result) }
    ensures written { OnOk result (IsWritten R.File.contents bytes.now) }
{
    check_place(files.look(path))?;
    let mut file = files.make(path)?;
    let result = files.write_all(path, &mut file, bytes);
    files.close(path, file);
    result
}

impl<R: Files + AllocGlobal> Shelf for DirShelf<R> {
    ghost files = { folder_files };

    type File = R::File;

    /// Opens the file at `PATH/NAME`, and no other.
    fn open(&mut self, name: &str) -> Result<Option<OpenedFile<R::File>>, ShelfFault>
        ensures answer { MatchResult result
            (λ opened. Opens R.File.remaining (folder_files self.old) name.now opened (folder_files self.new))
            (λ fault. Fails (folder_files self.old) name.now (folder_files self.new) fault) }
        ensures path { folder_path self.new ≡ folder_path self.old }
        ensures calls { Makes (calls_of_folder self.old) (calls_of_folder self.new)
            (file.Opens (path_to (folder_path self.old) name.now) result) }
    {
        let path = self.path_of(name)?;
        let answer = open_regular(&mut self.files, path.as_str());
        let Some(file) = open_answer(answer, &mut self.failures)? else {
            return Ok(None);
        };
        Ok(Some(OpenedFile::of(name, file)))
    }

    /// Closes the file, whatever it answers.
    fn close(&mut self, file: OpenedFile<R::File>) -> Result<(), ShelfFault>
        ensures answer { MatchResult result (λ _. Closes (folder_files self.old) file (folder_files self.new))
            (λ fault. FailsToClose (folder_files self.old) file (folder_files self.new) fault) }
        ensures device { IsErrOf result ShelfFault.Device ↔ (has_failed file ≡ true) }
        ensures path { folder_path self.new ≡ folder_path self.old }
        ensures calls { calls_of_folder self.new ≡ calls_of_folder self.old
            ++ reading (path_to (folder_path self.old) (name_of file)) (given file) }
    {
        let failed = file.has_failed();
        self.files.close_read(self.path.as_str(), file);
        if failed {
            return Err(count_failure(&mut self.failures));
        }
        Ok(())
    }

    /// The bytes that it hands over were read from the file at `PATH/NAME`, and none of them from another one.
    fn get_beginning(&mut self, name: &str, most: usize) -> Result<Option<Vec<u8>>, ShelfFault>
        ensures answer { MatchResult result
            (λ beginning. FindsBeginning (folder_files self.old) name.now most (option_map (λ v. v.items) beginning)
            (folder_files self.new))
            (λ fault. FailsToGet (folder_files self.old) name.now (folder_files self.new) fault) }
        ensures read { IfOk result (λ beginning. IfSome beginning (λ v. IsRead R.File.remaining most v.items)) }
        ensures path { folder_path self.new ≡ folder_path self.old }
        ensures calls { Makes (calls_of_folder self.old) (calls_of_folder self.new)
            (file.Reads (λ v. v.items) (path_to (folder_path self.old) name.now) most result) }
    {
        let path = self.path_of(name)?;
        let path = path.as_str();
        let answer = open_regular(&mut self.files, path);
        let Some(file) = open_answer(answer, &mut self.failures)? else {
            return Ok(None);
        };
        match read_opened(&mut self.files, path, file, most) {
            Ok(bytes) => Ok(beginning_of(Some(bytes), most)),
            Err(error) => Err(read_fault(error, &mut self.failures)),
        }
    }

    /// After Ok all bytes were written to the file at `PATH/NAME`. No other one was touched, whatever it answers.
    fn put(&mut self, name: &str, bytes: &[u8]) -> Result<(), ShelfFault>
        ensures answer { MatchResult result
            (λ _. PutsFile (folder_files self.old) (folder_files self.new) name.now bytes.now)
            (λ fault. FailsToPut (folder_files self.old) name.now bytes.now (folder_files self.new) fault) }
        ensures written { OnOk result (IsWritten R.File.contents bytes.now) }
        ensures path { folder_path self.new ≡ folder_path self.old }
        ensures calls { Makes (calls_of_folder self.old) (calls_of_folder self.new)
            (file.Stores (path_to (folder_path self.old) name.now) bytes.now result) }
    {
        let path = self.path_of(name)?;
        let answer = write_whole(&mut self.files, path.as_str(), bytes);
        write_answer(answer, &mut self.failures)
    }
}
