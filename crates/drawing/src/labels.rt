// Counts above the field, as many as fit. Lengths are in tenths of a pixel.
ghost use Rattle.std.specs.Prelude.{◌≤◌};

use crate::columns::{Column, Table};
use crate::frame::{HIGH, LEFT, width};
use crate::marks::middle;
use chart::svg::{Point, Tenths};

// What a row has labels of: updates with more than one pass, or gaps.
#[derive(Clone, Copy)]
enum Kind {
    Passes,
    Missing,
}

// A label: where it begins, the middle of its column, and its number.
#[derive(Clone, Copy)]
struct Label {
    from: u64,
    over: u64,
    n: u64,
}

impl Kind {
    // How many of its kind a column has.
    fn count_in(self, column: &Column) -> u64 {
        match self {
            Kind::Passes => column.bursts,
            Kind::Missing => column.gaps,
        }
    }

    // The number that the label of a column says: the most passes of one update, or all that is missing.
    fn number_in(self, column: &Column) -> u64 {
        match self {
            Kind::Passes => column.most,
            Kind::Missing => column.missing,
        }
    }

    // How many of so many the label of a column leaves out.
    fn left_of(self, count: u64) -> u64 {
        match self {
            Kind::Passes => count.saturating_sub(1),
            Kind::Missing => 0,
        }
    }

    // How far its row is from above.
    fn height(self) -> u64 {
        match self {
            Kind::Passes => 600,
            Kind::Missing => 760,
        }
    }

    // The passes of an update have a line over the whole height.
    fn draw(self, rt: &impl Print, label: Label) {
        let (x, y, n) = (Tenths(label.from), Tenths(self.height()), label.n);
        match self {
            Kind::Passes => {
                let _ = println!(rt;
                    "<path class=\"burst\" d=\"M{}v282\"/>",
                    Point(label.over, HIGH)
                );
                let _ = println!(rt;
                    "<text class=\"passes\" x=\"{x}\" y=\"{y}\">{n} passes</text>"
                );
            }
            Kind::Missing => {
                let _ = println!(rt;
                    "<text class=\"missing\" x=\"{x}\" y=\"{y}\">{n} missing</text>"
                );
            }
        }
    }
}

// Where the label over a mark begins, in the field and before the limit, if there is room behind `busy`.
fn place(over: u64, wide: u64, busy: u64, limit: u64) -> Option<u64>
    requires { wide ≤ 2000 }
{
    if (over > limit) | (limit < 2000) {
        return None;
    }
    let centred = over.saturating_sub(wide / 2).max(LEFT);
    let from = centred.min(limit - wide);
    if from < busy { None } else { Some(from) }
}

// Lays the labels of a row from left to right, before a limit, and answers how many are left out.
fn lay<F: Fn(Label)>(table: &Table<'_>, kind: Kind, limit: u64, draw: F) -> u64
    requires { F.IsAlwaysCallable draw }
{
    let mut busy: u64 = 0;
    let mut left: u64 = 0;
    for (x, column) in table.columns.iter().enumerate() {
        let count = kind.count_in(column);
        if count > 0 {
            let n = kind.number_in(column);
            let (over, wide) = (middle(x), width(n));
            match place(over, wide, busy, limit) {
                Some(from) => {
                    draw(Label { from, over, n });
                    busy = from.wrapping_add(wide + 60);
                    left = left.wrapping_add(kind.left_of(count));
                }
                None => left = left.wrapping_add(count),
            }
        }
    }
    left
}

// One row, with room at its end for what is left out.
fn row(rt: &impl Print, table: &Table<'_>, kind: Kind, limit: u64) {
    let left = lay(table, kind, limit, |_| {});
    let cut = if left > 0 { width(left) + 260 } else { 0 };
    let more = lay(
        table,
        kind,
        limit.saturating_sub(cut),
        |label| kind.draw(rt, label),
    );
    if more > 0 {
        let (x, y) = (Tenths(limit), Tenths(kind.height()));
        let _ = println!(rt; "<text class=\"more\" x=\"{x}\" y=\"{y}\">and {more} more</text>");
    }
}

// The passes above, what is missing below them.
pub fn labels(rt: &impl Print, table: &Table<'_>, stops: bool) {
    row(rt, table, Kind::Passes, 9500);
    row(rt, table, Kind::Missing, if stops { 8700 } else { 9500 });
}
