// Marks: what is missing, passes, repeats, and where the replay stops.
use crate::columns::{Column, Table};
use crate::course::Course;
use crate::frame::{HIGH, LOW, across};
use chart::svg::Point;

// The middle of a column.
pub fn middle(column: usize) -> u64 {
    800 + (column.min(840) as u64) * 10
}

// The same shape in each column that has something of a kind, as a path in its class.
fn shapes<F: Fn(&Column) -> u64>(
    rt: &impl Print,
    table: &Table<'_>,
    class: &str,
    count: F,
    y: u64,
    shape: &str,
)
    requires { F.IsAlwaysCallable count }
{
    let _ = print!(rt; "<path class=\"{class}\" d=\"");
    for (x, column) in table.columns.iter().enumerate() {
        if count(column) > 0 {
            let _ = print!(rt; "M{}{shape}", Point(middle(x), y));
        }
    }
    let _ = println!(rt; "\"/>");
}

// A band over the whole height for what is missing, ticks below the axis for passes, and triangles above
// the field for repeats.
pub fn marks(rt: &impl Print, table: &Table<'_>, c: &Course) {
    if c.replay.missing > 0 {
        shapes(rt, table, "gap", |column| column.gaps, HIGH, "v282");
    }
    if c.replay.folds > 0 {
        shapes(rt, table, "pass", |column| column.passes, LOW, "v6");
    }
    if c.repeats > 0 {
        shapes(
            rt,
            table,
            "repeat",
            |column| column.repeats,
            HIGH,
            "l-3,-6h6z",
        );
    }
}

// A red line where a record is refused.
pub fn stop(rt: &impl Print, table: &Table<'_>, c: &Course) {
    if let Some(number) = c.refused {
        let top = Point(across(&table.frame.time, c.time), HIGH);
        let _ = println!(rt; "<path class=\"stop\" d=\"M{top}v282\"/>");
        let _ = println!(rt; "<text class=\"stopped\" x=\"950\" y=\"76\">refused {number}</text>");
    }
}
