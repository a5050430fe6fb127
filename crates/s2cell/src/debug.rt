//! Debug texts: the face, a slash, and one digit for each level.
ghost use Rattle.std.specs.Prelude.{◌≡◌, MatchOption, ℕ};
ghost use Rattle.s2cell.specs.Debug.{IsDebug, debug_of};

use crate::CellId;
use crate::digits::value_of_digit;
use arrayvec::ArrayVec;

impl CellId {
    /// The cell with this debug text (`FromDebugString`). None if the text is not one. A debug text is a digit 0 to 5,
    /// a slash, and 0 to 30 digits 0 to 3.
    pub fn from_debug(text: &[u8]) -> Option<CellId>
        ensures { MatchOption result ((n : ℕ) → IsDebug text.now n → ⊥) (λ c. IsDebug text.now c) }
    {
        let [face, b'/', digits @ ..] = text else {
            return None;
        };
        let mut place = u64::from(value_of_digit(*face));
        if place > 5 || digits.len() > 30 {
            return None;
        }
        for byte in digits {
            let digit = value_of_digit(*byte);
            if digit > 3 {
                return None;
            }
            place = 4 * place + u64::from(digit);
        }
        Some(CellId {
            id: (2 * place + 1) << (2 * (30 - digits.len())),
        })
    }

    /// The debug text of the cell (`ToString`): the digit of its face, a slash, and for each level the number of the
    /// child on the way down to the cell.
    pub fn debug(self) -> ArrayVec<u8, 32>
        ensures debug { IsDebug result.items self }
        ensures value { result.items ≡ debug_of self }
    {
        // The digits of all levels down to the leaves, then cut after the cell's own.
        let mut digits = [0u8; 32];
        digits[0] = b'0' + self.face();
        digits[1] = b'/';
        for k in 0..30u32 {
            digits[k as usize + 2] = b'0' + ((self.id >> (59 - 2 * k)) & 3) as u8;
        }
        let mut text = ArrayVec::from(digits);
        text.truncate(self.level() as usize + 2);
        text
    }
}
