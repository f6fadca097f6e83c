// A table of symbols in lent memory.
ghost use Rattle.std.specs.Prelude.{◌≡◌, ◌*◌, ◌^◌, ◌<◌, ◌≤◌, length};

#[derive(Drop)]
pub struct Table<'a, X> {
    pub(crate) columns: usize,
    pub(crate) rows: usize,
    pub(crate) cells: &'a mut [X],
    // No heap here: a shape has at most 19 columns.
    pub(crate) lost: [bool; 19],
    pub(crate) meter: u64,
    ghost few: { columns ≤ 19 },
    ghost full: { columns * rows ≤ length cells.now },
    ghost marks: { length lost ≡ 19 },
    ghost counted: { meter < 2 ^ 64 },
}
