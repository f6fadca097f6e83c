// How a shape is made, and its numbers.
ghost use Rattle.std.specs.Prelude.{◌≡◌, ℕ, ◌^◌, ◌<◌, ◌≤◌, if◌then◌else◌, Some, None};
ghost use Rattle.code.specs.Rules.{listed, one_of, rows as stored_rows};
ghost use Rattle.code.specs.Shapes.{Made, parities_of, columns_of, helpers_of, classes_of, rows_of, positions_of, shift_of, is_shifted};

use crate::refusal::Refusal;
use crate::shape::Shape;

#[tactic(auto, using(crate::proofs::Bounds::power_low))]
fn power(base: usize, exponent: usize) -> usize
    requires base { base ≤ 4 }
    requires exponent { exponent ≤ 10 }
    ensures is { result ≡ base ^ exponent }
    ensures low { result ≤ 1048576 }
{
    base.pow(exponent as u32)
}

fn is_listed(p: usize) -> bool
    ensures { result ≡ one_of listed p }
{
    matches!(
        p,
        3 | 5 | 11 | 13 | 19 | 29 | 37 | 53 | 59 | 61 | 67 | 83 | 101
    )
}

// Of the three numbers, before they are a shape.
fn rows_by(k: usize, q: usize, p: usize) -> usize
    requires data { (4 ≤ k) × (k ≤ 12) }
    requires helping { (2 ≤ q) × (q ≤ 4) }
    requires prime { (1 ≤ p) × (p ≤ 101) }
    ensures { result ≡ stored_rows k q p }
{
    (p - 1) * power(q, k - 2)
}

impl Shape {
    // The rules are tried in the order of their numbers.
    pub fn new(k: usize, q: usize, p: usize) -> Result<Shape, Refusal>
        ensures { Made k q p result }
    {
        if !(4..=12).contains(&k) {
            return Err(Refusal::DataColumns { k });
        }
        if !(2..=4).contains(&q) {
            return Err(Refusal::HelpingParities { q });
        }
        if !is_listed(p) {
            return Err(Refusal::NotListed { p });
        }
        if p < q {
            return Err(Refusal::BelowParities { p });
        }
        let rows = rows_by(k, q, p);
        if rows > 4096 {
            return Err(Refusal::TooManyRows { rows });
        }
        Ok(Shape { k, q, p })
    }

    // Parity columns.
    pub fn parities(self) -> usize
        ensures { result ≡ parities_of self }
    {
        2 * self.q - 1
    }

    // All columns.
    pub fn columns(self) -> usize
        ensures { result ≡ columns_of self }
    {
        self.k + self.parities()
    }

    // The columns that help to rebuild a data column.
    pub fn helpers(self) -> usize
        ensures { result ≡ helpers_of self }
    {
        self.k + self.q - 1
    }

    // Rows that leave the same rest modulo this number are of one class.
    pub fn classes(self) -> usize
        ensures { result ≡ classes_of self }
    {
        power(self.q, self.k - 2)
    }

    // Stored rows of a column.
    pub fn rows(self) -> usize
        ensures { result ≡ rows_of self }
    {
        (self.p - 1) * self.classes()
    }

    // Positions of the ring: the rows, and one extra symbol for each class.
    pub fn positions(self) -> usize
        ensures { result ≡ positions_of self }
    {
        self.p * self.classes()
    }

    // How far a data column is shifted for a parity; none if there is no such parity or data column.
    pub fn shift(self, parity: usize, column: usize) -> Option<usize>
        ensures { result ≡ (if is_shifted self parity column then Some (shift_of self parity column) else None) }
    {
        if !(1..=self.parities()).contains(&parity) || !(1..=self.k).contains(&column) {
            return None;
        }
        if parity <= self.q {
            return Some(self.rising(parity, column));
        }
        Some(self.falling(parity, column))
    }

    // The shifts of parities 1 to q grow with the column's number, and the last column stays.
    fn rising(self, parity: usize, column: usize) -> usize
        requires parity { (1 ≤ parity) × (parity ≤ self.q) }
        requires column { (1 ≤ column) × (column ≤ self.k) }
        ensures { result ≡ shift_of self parity column }
    {
        if column < self.k {
            (parity - 1) * power(self.q, column - 1)
        } else {
            0
        }
    }

    // Those of the later parities shrink, and the first column stays.
    fn falling(self, parity: usize, column: usize) -> usize
        requires parity { (self.q < parity) × (parity ≤ parities_of self) }
        requires column { (1 ≤ column) × (column ≤ self.k) }
        ensures { result ≡ shift_of self parity column }
    {
        if column <= 1 {
            0
        } else {
            (2 * self.q - parity) * power(self.q, self.k - column)
        }
    }
}
