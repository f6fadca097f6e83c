// A plain book of the route, kept beside the array: which boards are lost, and the readings of the data columns.
use code::Shape;
use route::reading;
use std::alloc::{AllocError, Global};
use std::collections::{BTreeMap, BTreeSet};
use symbol::Stand;

#[derive(Drop)]
pub(crate) struct Book {
    lost: BTreeSet<usize>,
    // by column and row
    readings: BTreeMap<(usize, usize), Stand>,
}

impl Book {
    // All boards present, and each machine's first reading.
    pub(crate) fn new(heap: Global, shape: Shape) -> Result<Book, AllocError> {
        let mut readings = BTreeMap::new(heap);
        for column in 1..=shape.k {
            for row in 0..shape.rows() {
                readings.insert((column, row), reading(column, row))?;
            }
        }
        Ok(Book {
            lost: BTreeSet::new(heap),
            readings,
        })
    }

    pub(crate) fn put(
        &mut self,
        column: usize,
        row: usize,
        reading: Stand,
    ) -> Result<(), AllocError> {
        self.readings.insert((column, row), reading)?;
        Ok(())
    }

    // None where the route has no machine.
    pub(crate) fn reading(&self, column: usize, row: usize) -> Option<Stand> {
        self.readings.get(&(column, row)).copied()
    }

    pub(crate) fn lose(&mut self, column: usize) -> Result<(), AllocError> {
        self.lost.insert(column)?;
        Ok(())
    }

    pub(crate) fn bring_back(&mut self, column: usize) {
        self.lost.remove(&column);
    }

    pub(crate) fn is_lost(&self, column: usize) -> bool {
        self.lost.contains(&column)
    }
}
