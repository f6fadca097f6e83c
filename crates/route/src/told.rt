// What is printed of the route.
use code::Shape;
use std::fmt;
use symbol::Stand;

// What the route of a shape is.
#[derive(Clone, Copy)]
pub struct InWords(pub Shape);

impl fmt::Display for InWords {
    fn fmt<W: fmt::Write>(&self, f: &mut fmt::Formatter<W>) -> fmt::Result {
        let shape = self.0;
        let Shape { k, q, p } = shape;
        let (parities, columns, helpers) = (shape.parities(), shape.columns(), shape.helpers());
        let (rows, classes, positions) = (shape.rows(), shape.classes(), shape.positions());
        writeln!(
            f,
            "A route of {columns} boards: {k} carry data, {parities} carry parity."
        )?;
        writeln!(
            f,
            "Shape k {k}, q {q}, p {p}: {rows} rows in {classes} classes, a ring of {positions} positions."
        )?;
        write!(f, "A lost data column has {helpers} helpers.")
    }
}

// A stand's stock and cash, in columns.
#[derive(Clone, Copy)]
pub struct Told(pub Stand);

impl fmt::Display for Told {
    fn fmt<W: fmt::Write>(&self, f: &mut fmt::Formatter<W>) -> fmt::Result {
        let Stand { stock, cash } = self.0;
        write!(f, "{stock:5} {cash:6}")
    }
}
