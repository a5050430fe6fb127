//! Numbers of eight bytes, the lowest first, as the files of unions have them.
ghost use Rattle.std.specs.Prelude.{◌≡◌, ◌≤◌, ◌++◌, length, OnOk};
ghost use Rattle.s2list.specs.Numbers.{first_number, number_text};

use byteorder::{ByteOrder, LittleEndian};
use std::alloc::AllocError;

/// The size of a number in a file, in bytes.
pub const NUMBER_SIZE: usize = 8;

/// The number that the first eight bytes stand for.
#[tactic(auto, unfolding(crate::specs::Numbers::first_number))]
pub fn number(bytes: &[u8]) -> u64
    requires { 8 ≤ length bytes.now }
    ensures { result ≡ first_number bytes.now }
{
    LittleEndian::read_u64(bytes)
}

/// Adds the eight bytes of a number.
#[tactic(auto, unfolding(crate::specs::Numbers::number_text))]
pub fn put_number(bytes: &mut Vec<u8>, number: u64) -> Result<(), AllocError>
    ensures { OnOk result (bytes.new.items ≡ bytes.old.items ++ number_text number) }
{
    let mut text = [0u8; NUMBER_SIZE];
    LittleEndian::write_u64(&mut text, number);
    bytes.extend_from_slice(&text)
}
