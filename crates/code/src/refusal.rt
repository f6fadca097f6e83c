// Why a call is refused. The comment of each cause has its number; the printed text begins with it.
ghost use Rattle.std.specs.Prelude.{◌≡◌};
ghost use Rattle.code.specs.Refusals.{number_of, values_of};

use thiserror::Error;

#[derive(Clone, Copy, PartialEq, Eq, Debug, Error)]
pub enum Refusal {
    // 1: k is outside 4 to 12
    #[error("{}: {k} data columns, and 4 to 12 are allowed", self.number())]
    DataColumns { k: usize },
    // 2: q is outside 2 to 4
    #[error("{}: {q} helping parities, and 2 to 4 are allowed", self.number())]
    HelpingParities { q: usize },
    // 3: p is not a listed prime
    #[error("{}: {p} is not a listed prime", self.number())]
    NotListed { p: usize },
    // 4: p is below q
    #[error("{}: the prime {p} is below the helping parities", self.number())]
    BelowParities { p: usize },
    // 5: there are more than 4,096 rows
    #[error("{}: {rows} rows, and 4096 are allowed", self.number())]
    TooManyRows { rows: usize },
    // 6: the table's memory has fewer symbols than the shape
    #[error("{}: the table needs {needed} symbols", self.number())]
    TableTooSmall { needed: usize },
    // 7: the text has another length than the shape's frames
    #[error("{}: the text needs {needed} bytes", self.number())]
    TextLength { needed: usize },
    // 8: a frame is malformed or out of place
    #[error("{}: line {line} is no frame of its place", self.number())]
    BadFrame { line: usize },
    // 9: a frame's mark differs from that of its column's first frame
    #[error("{}: line {line} has another mark than its column", self.number())]
    MarkDiffers { line: usize },
    // 10: there is no such column or row; the row is 0 where none is named, as the values that are handed out fix it
    #[error("{}: no column {column}, row {row}", self.number())]
    NoSuchPlace { column: usize, row: usize },
    // 11: the column is lost
    #[error("{}: column {column} is lost", self.number())]
    ColumnLost { column: usize },
    // 12: the column is not lost
    #[error("{}: column {column} is not lost", self.number())]
    ColumnPresent { column: usize },
    // 13: the quote's count is not this array's, which is given
    #[error("{}: this array's count is {count}", self.number())]
    CountDiffers { count: usize },
    // 14: the work area has fewer symbols than the call needs
    #[error("{}: the work area needs {needed} symbols", self.number())]
    WorkTooSmall { needed: usize },
    // 15: the store has other columns or rows than the shape; the store's are given
    #[error("{}: the store has {columns} columns of {rows} rows", self.number())]
    StoreDiffers { columns: usize, rows: usize },
    // 16: the store refuses a step of an accepted call; its refusal's number is given.
    // A number: a Refusal in it would need a box, and there is no heap; an enum of bare causes says no more than a number.
    #[error("{}: the store refused a step with {number}", self.number())]
    StoreRefused { number: u8 },
}

impl Refusal {
    // A line for each case, here and below, is the table of docs/REFUSALS.md.
    pub fn number(self) -> u8
        ensures { result ≡ number_of self }
    {
        match self {
            Refusal::DataColumns { .. } => 1,
            Refusal::HelpingParities { .. } => 2,
            Refusal::NotListed { .. } => 3,
            Refusal::BelowParities { .. } => 4,
            Refusal::TooManyRows { .. } => 5,
            Refusal::TableTooSmall { .. } => 6,
            Refusal::TextLength { .. } => 7,
            Refusal::BadFrame { .. } => 8,
            Refusal::MarkDiffers { .. } => 9,
            Refusal::NoSuchPlace { .. } => 10,
            Refusal::ColumnLost { .. } => 11,
            Refusal::ColumnPresent { .. } => 12,
            Refusal::CountDiffers { .. } => 13,
            Refusal::WorkTooSmall { .. } => 14,
            Refusal::StoreDiffers { .. } => 15,
            Refusal::StoreRefused { .. } => 16,
        }
    }

    // The values returned with it; the second is 0 where there is one only.
    pub fn values(self) -> [usize; 2]
        ensures { result ≡ values_of self }
    {
        match self {
            Refusal::DataColumns { k } => [k, 0],
            Refusal::HelpingParities { q } => [q, 0],
            Refusal::NotListed { p } => [p, 0],
            Refusal::BelowParities { p } => [p, 0],
            Refusal::TooManyRows { rows } => [rows, 0],
            Refusal::TableTooSmall { needed } => [needed, 0],
            Refusal::TextLength { needed } => [needed, 0],
            Refusal::BadFrame { line } => [line, 0],
            Refusal::MarkDiffers { line } => [line, 0],
            Refusal::NoSuchPlace { column, row } => [column, row],
            Refusal::ColumnLost { column } => [column, 0],
            Refusal::ColumnPresent { column } => [column, 0],
            Refusal::CountDiffers { count } => [count, 0],
            Refusal::WorkTooSmall { needed } => [needed, 0],
            Refusal::StoreDiffers { columns, rows } => [columns, rows],
            Refusal::StoreRefused { number } => [number as usize, 0],
        }
    }
}
