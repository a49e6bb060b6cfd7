// Where an element of an interleaved block comes from.
ghost use Rattle.std.specs.Prelude.{◌≡◌, ◌+◌, ◌-◌, ◌*◌, ◌<◌, ◌≤◌, MatchOption};
ghost use Rattle.interleaver.specs.Blocks.{size, place, row, column};

use crate::blocks::{ROWS, SIZE};

// A row and a column of a block, counted from 1.
#[derive(Clone, Copy, PartialEq, Eq, Debug)]
pub struct Cell {
    pub row: u8,
    pub column: u8,
}

impl Cell {
    // The cell that element k of an interleaved block comes from.
    pub fn of(k: usize) -> Option<Cell>
        ensures cell { MatchOption result (size ≤ k) (λ c. (k < size) × (c.row ≡ row k) × (c.column ≡ column k)) }
        ensures place { MatchOption result (size ≤ k) (λ c. place 8 203 k ≡ 203 * (c.row - 1) + (c.column - 1)) }
        ensures known { ((row 202 ≡ 3) × (column 202 ≡ 26)) × ((row 203 ≡ 4) × (column 203 ≡ 26)) × ((row 811 ≡ 4) × (column 811 ≡ 102)) }
    {
        if k >= SIZE {
            return None;
        }
        Some(Cell {
            row: (k % ROWS) as u8 + 1,
            column: (k / ROWS) as u8 + 1,
        })
    }
}
