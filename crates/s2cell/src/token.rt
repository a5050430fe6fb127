//! Tokens: the hexadecimal digits of an identifier, without the zeros at their end.
ghost use Rattle.std.specs.Prelude.{◌≡◌, MatchOption, length, take, ℕ};
ghost use Rattle.s2cell.specs.Cell.{IsCell};
ghost use Rattle.s2cell.specs.Text.{in_digits};
ghost use Rattle.s2cell.specs.Token.{IsReading, IsToken, token_of};

use crate::CellId;
use crate::digits::{hex_pair, value_of_digit};
use arrayvec::ArrayVec;

/// How many hexadecimal digits an identifier has.
const TOKEN_LEN: usize = 16;

impl CellId {
    /// The cell that a text of 1 to 16 hexadecimal digits stands for, in either case and with or without the zeros at
    /// their end (`FromToken`). None if the text has another form, or the identifier that it stands for is not a
    /// cell's. So the answer is None for `X`, which S2 prints for an invalid identifier.
    pub fn from_token(text: &[u8]) -> Option<CellId>
        ensures { MatchOption result ((n : ℕ) → IsReading text.now n → IsCell n → ⊥)
            (λ c. IsReading text.now c) }
    {
        if text.is_empty() || text.len() > TOKEN_LEN {
            return None;
        }
        let mut id = 0u64;
        for byte in text {
            let digit = value_of_digit(*byte);
            if digit > 15 {
                return None;
            }
            id = 16 * id + u64::from(digit);
        }
        CellId::from_id(id << (4 * (TOKEN_LEN - text.len())))
    }

    /// The token of the cell (`ToToken`): the hexadecimal digits of its identifier in lower case, without the zeros at
    /// their end, 1 to 16 digits.
    pub fn token(self) -> ArrayVec<u8, 16>
        ensures token { IsToken result.items self }
        ensures value { result.items ≡ token_of self }
    {
        // All sixteen digits, then cut: this is faster than a test for the end at each digit.
        let _ = self.id();
        let mut digits = [0u8; TOKEN_LEN];
        self.write_digits(&mut digits);
        let mut text = ArrayVec::from(digits);
        text.truncate(self.token_len());
        text
    }

    /// How many bytes the token has. Does not form it.
    pub fn token_len(self) -> usize
        ensures { result ≡ length (token_of self) }
    {
        TOKEN_LEN - self.id.trailing_zeros() as usize / 4
    }

    /// Writes the sixteen hexadecimal digits of the identifier, with the zeros at their end. The token is the first
    /// `token_len` of them.
    pub fn write_digits(self, digits: &mut [u8])
        requires { length digits.old ≡ 16 }
        ensures digits { digits.new ≡ in_digits 16 16 self }
        ensures token { take (length (token_of self)) digits.new ≡ token_of self }
    {
        for k in 0..8usize {
            let (high, low) = hex_pair(((self.id >> (56 - 8 * k)) & 255) as u8);
            digits[2 * k] = high;
            digits[2 * k + 1] = low;
        }
    }
}
