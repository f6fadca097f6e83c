// The shape of an array. Its rules are part of its type: no shape exists that breaks one.
ghost use Rattle.std.specs.Prelude.{◌≡◌, ◌≤◌, true};
ghost use Rattle.code.specs.Rules.{listed, one_of, rows as stored_rows};

#[derive(Clone, Copy, PartialEq, Eq, Debug)]
pub struct Shape {
    // data columns
    pub k: usize,
    // parity columns that help to rebuild a data column
    pub q: usize,
    // the prime: a ring of p blocks, of which p - 1 are stored
    pub p: usize,
    ghost data_columns: { (4 ≤ k) × (k ≤ 12) },
    ghost helping: { (2 ≤ q) × (q ≤ 4) },
    ghost prime: { one_of listed p ≡ true },
    ghost wide: { q ≤ p },
    ghost small: { stored_rows k q p ≤ 4096 },
}
