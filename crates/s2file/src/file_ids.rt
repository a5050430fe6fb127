//! The numbers of a file by their indexes, in its bytes.
ghost use Rattle.std.specs.Prelude.{◌≡◌, ◌*◌, ◌/◌, ◌<◌, length};
ghost use Rattle.s2file.specs.Numbers.{number_in, numbers_in};

use byteorder::{ByteOrder, LittleEndian};
use s2list::{Cells, Listed, NUMBER_SIZE, number};

/// The numbers of a union file after its head: eight bytes each, the lowest byte first.
#[derive(Clone, Copy)]
pub struct FileIds<'a> {
    /// The bytes after the head. Fewer than eight bytes at the end are not a number.
    pub bytes: &'a [u8],
}

impl<'a> Listed for FileIds<'a> {
    ghost ids = { λ s. numbers_in s.bytes.now };

    fn len(&self) -> usize {
        self.bytes.len() / NUMBER_SIZE
    }
}

impl<'a> Cells for FileIds<'a> {
    fn id(&self, k: usize) -> u64 {
        number_at(self.bytes, k)
    }
}

/// The number at index `k`, eight bytes each.
fn number_at(bytes: &[u8], k: usize) -> u64
    requires { k < length bytes.now / 8 }
    ensures { result ≡ number_in bytes.now k }
{
    number(&bytes[NUMBER_SIZE * k..])
}

/// Fills a list with the numbers of bytes, eight bytes each, which are as many.
pub fn read_numbers(bytes: &[u8], out: &mut [u64])
    requires { length bytes.now ≡ 8 * length out.old }
    ensures { out.new ≡ numbers_in bytes.now }
{
    LittleEndian::read_u64_into(bytes, out);
}
