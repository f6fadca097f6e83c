// The route's readings, against tools/reference.py.
use code::Shape;
use route::{Told, cells, reading};
use std::test::Fail;
use symbol::Stand;

#[test]
fn readings(rt: HostRuntime) -> Result<(), Fail> {
    assert_eq!(rt;
        reading(1, 0),
        Stand {
            stock: 37,
            cash: 925
        }
    );
    let cells = cells(rt.alloc(), Shape::new(4, 2, 5)?)?;
    assert_eq!(rt; cells.len(), 112);
    assert_eq!(rt;
        cells[37],
        Stand {
            stock: 46,
            cash: 4150
        }
    );
    assert_eq!(rt; cells[64], Stand { stock: 0, cash: 0 });
    let told = format!(in rt.alloc(); "{}", Told(cells[37]))?;
    assert_eq!(rt; told.as_str(), "   46   4150");
    Ok(())
}
