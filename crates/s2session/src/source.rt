//! The bytes of a file, a piece at a time.
ghost use Rattle.std.specs.Prelude.{◌≡◌, ◌≢◌, ℕ, ◌+◌, ◌<◌, ◌≤◌, List, [], ◌++◌, length, drop, vec_len};
ghost use Rattle.std.specs.Prelude.{◌↔◌, true, false, MatchBool, MatchResult, IfErr, IfOk, OnErr, OnOk};
ghost use Rattle.std.specs.IoError.{error_kind};
ghost use Rattle.s2shelf.specs.OpenedFile.{Left, has_ended, has_failed};
ghost use Rattle.s2session.specs.declared.fault.ReadFault.{ReadFault};

use crate::fault::ReadFault;
use s2shelf::OpenedFile;
use std::alloc::Global;
use std::io;
use std::io::{ErrorKind, Read};

/// How many bytes a read asks for at most.
const PIECE: usize = 64 * 1024;

/// Bytes that reads of a file gave and that are still to be taken: those of `bytes` from `start` to `end`.
#[derive(Drop)]
pub(crate) struct Buffer {
    bytes: Vec<u8>,
    start: usize,
    end: usize,
    ghost ordered: { start ≤ end },
    ghost within: { end ≤ vec_len bytes },
    ghost size: { vec_len bytes ≡ 65536 },
}

impl Buffer {
    ghost use Rattle.s2session.specs.Working.Source.{Ahead, Passes, held, room};

    /// An empty buffer for one piece.
    pub(crate) fn new(alloc: Global) -> Result<Buffer, ReadFault>
        ensures { MatchResult result (λ buffer. held buffer ≡ []) (λ fault. fault ≡ ReadFault.Memory) }
    {
        Ok(Buffer {
            bytes: vec![in alloc; 0u8; PIECE]?,
            start: 0,
            end: 0,
        })
    }

    /// The bytes that are held.
    pub(crate) fn as_slice(&self) -> &[u8]
        ensures { result.now ≡ held self.now }
    {
        let (start, end) = (self.start, self.end);
        let all = self.bytes.as_slice();
        &all[start..end]
    }

    /// Takes that many bytes from the front.
    pub(crate) fn consume(&mut self, count: usize)
        requires { count ≤ length (held self.old) }
        ensures { held self.new ≡ drop count (held self.old) }
    {
        self.start += count;
    }

    /// Takes all bytes that are held.
    pub(crate) fn consume_all(&mut self)
        ensures { held self.new ≡ [] }
    {
        self.start = self.end;
    }

    /// Moves the bytes that are held to the front of the buffer.
    fn move_to_front(&mut self)
        ensures held { held self.new ≡ held self.old }
        ensures room { room self.new + length (held self.new) ≡ 65536 }
    {
        let (start, end) = (self.start, self.end);
        self.bytes.as_mut_slice().copy_within(start..end, 0);
        self.start = 0;
        self.end = end - start;
    }

    /// One read, into the room after the bytes that are held. No read of the file has failed before, but by running out
    /// of memory or by an interruption.
    fn read_from<F: Read>(&mut self, file: &mut OpenedFile<F>) -> io::Result<usize>
        requires { has_failed file.old ≡ false }
        ensures ok { IfOk result (λ n. (more : List ℕ) × (length more ≡ n) × (held self.new ≡ held self.old ++ more)
            × Passes (Left F.remaining file.old) (Left F.remaining file.new) more) }
        ensures room { IfOk result (λ n. room self.new + n ≡ room self.old) }
        ensures end { IfOk result (λ n. n ≡ 0 → 0 < room self.old → has_ended file.new ≡ true) }
        ensures err { OnErr result ((held self.new ≡ held self.old) × (room self.new ≡ room self.old)
            × Passes (Left F.remaining file.old) (Left F.remaining file.new) []) }
        ensures well { OnOk result (has_failed file.new ≡ false) }
        ensures passed_over { IfErr result (λ error. error_kind error ≡ ErrorKind.Interrupted
            → has_failed file.new ≡ false) }
    {
        let end = self.end;
        let count = file.read(&mut self.bytes.as_mut_slice()[end..])?;
        self.end = end + count;
        Ok(count)
    }

    /// Whether at least `count` bytes are left. If so, that many are held afterwards; if not, all that are left are.
    pub(crate) fn has<F: Read>(
        &mut self,
        file: &mut OpenedFile<F>,
        count: usize,
    ) -> Result<bool, ReadFault>
        requires { count ≤ 8 }
        ensures kept { Passes (Ahead self.old (Left F.remaining file.old)) (Ahead self.new (Left F.remaining file.new))
            [] }
        ensures has { MatchResult result (λ has. MatchBool has (count ≤ length (held self.new))
            ((length (held self.new) < count) × (has_ended file.new ≡ true)))
            (λ fault. fault ≢ ReadFault.Form) }
    {
        if self.end - self.start >= count {
            return Ok(true);
        }
        self.fill(file, count)
    }

    /// Reads until `count` bytes are held, or to the end. After a read that failed nothing more is read, unless it was
    /// interrupted.
    fn fill<F: Read>(&mut self, file: &mut OpenedFile<F>, count: usize) -> Result<bool, ReadFault>
        requires most { count ≤ 8 }
        requires few { length (held self.old) < count }
        ensures kept { Passes (Ahead self.old (Left F.remaining file.old)) (Ahead self.new (Left F.remaining file.new))
            [] }
        ensures has { MatchResult result (λ has. MatchBool has (count ≤ length (held self.new))
            ((length (held self.new) < count) × (has_ended file.new ≡ true)))
            (λ fault. fault ≢ ReadFault.Form) }
    {
        if file.has_failed() {
            return Err(ReadFault::Device);
        }
        self.move_to_front();
        'reads: for _ in 0..u64::MAX {
            match self.read_from(file) {
                Ok(0) => return Ok(false),
                Ok(_) => {
                    if self.end - self.start >= count {
                        return Ok(true);
                    }
                }
                Err(error) if error.kind() == ErrorKind::Interrupted => {}
                Err(error) => return Err(fault_of_read(&error)),
            }
        }
        // 2^64 - 1 reads have given too little.
        Err(ReadFault::Device)
    }
}

/// The fault of a session when a read of it fails.
fn fault_of_read(error: &io::Error) -> ReadFault
    ensures form { result ≢ ReadFault.Form }
    ensures memory { (result ≡ ReadFault.Memory) ↔ (error_kind error.now ≡ ErrorKind.OutOfMemory) }
{
    match error.kind() {
        ErrorKind::OutOfMemory => ReadFault::Memory,
        _ => ReadFault::Device,
    }
}
