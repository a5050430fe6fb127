//! The texts of cells: tokens and debug texts.
ghost use Rattle.std.specs.Prelude.{◌≡◌, ◌≤◌, ℕ};
ghost use Rattle.s2cell.specs.Cell.{IsCell};
ghost use Rattle.s2cell.specs.Debug.{IsDebug, debug_of};
ghost use Rattle.s2cell.specs.Token.{IsReading, token_of};
ghost use Rattle.s2union_c.specs.Results.{Made, Refused};
ghost use Rattle.s2union_c.specs.Status.{made, no_cell};

use crate::results::put;
use crate::status::{MADE, NO_CELL};
use s2cell::CellId;

/// The token of a cell: its identifier in hexadecimal without the zeros at its end, 1 to 16 bytes.
#[unsafe(no_mangle)]
pub extern "C" fn s2u_token(id: u64, text: &mut [u8], len: &mut usize) -> i32
    ensures made { IsCell id → Made result (token_of id) text.old text.new len.new }
    ensures no_cell { (IsCell id → ⊥) → Refused result no_cell text.old text.new len.new }
    ensures most { len.new ≤ 16 }
{
    match CellId::from_id(id) {
        Some(cell) => put(cell.token().as_slice(), text, len),
        None => {
            *len = 0;
            NO_CELL
        }
    }
}

/// The cell of a token, in upper or lower case.
#[unsafe(no_mangle)]
pub extern "C" fn s2u_from_token(text: &[u8], id: &mut u64) -> i32
    ensures found { (n : ℕ) → IsReading text.now n → IsCell n → (result ≡ made) × (id.new ≡ n) }
    ensures no_cell { ((n : ℕ) → IsReading text.now n → IsCell n → ⊥) → (result ≡ no_cell) × (id.new ≡ 0) }
{
    match CellId::from_token(text) {
        Some(cell) => {
            *id = cell.id();
            MADE
        }
        None => {
            *id = 0;
            NO_CELL
        }
    }
}

/// The debug text of a cell: its face, a slash, and the number of the child at each level, 2 to 32 bytes.
#[unsafe(no_mangle)]
pub extern "C" fn s2u_debug(id: u64, text: &mut [u8], len: &mut usize) -> i32
    ensures made { IsCell id → Made result (debug_of id) text.old text.new len.new }
    ensures no_cell { (IsCell id → ⊥) → Refused result no_cell text.old text.new len.new }
    ensures most { len.new ≤ 32 }
{
    match CellId::from_id(id) {
        Some(cell) => put(cell.debug().as_slice(), text, len),
        None => {
            *len = 0;
            NO_CELL
        }
    }
}

/// The cell with a debug text.
#[unsafe(no_mangle)]
pub extern "C" fn s2u_from_debug(text: &[u8], id: &mut u64) -> i32
    ensures found { (n : ℕ) → IsDebug text.now n → (result ≡ made) × (id.new ≡ n) }
    ensures no_cell { ((n : ℕ) → IsDebug text.now n → ⊥) → (result ≡ no_cell) × (id.new ≡ 0) }
{
    match CellId::from_debug(text) {
        Some(cell) => {
            *id = cell.id();
            MADE
        }
        None => {
            *id = 0;
            NO_CELL
        }
    }
}
