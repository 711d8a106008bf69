// The setpoint as one path.
use crate::columns::{Table, Trace};
use chart::svg::{Point, Tenths};

// A line straight up or down, to a height.
fn rise(rt: &impl Print, to: u64) {
    let _ = print!(rt; "V{}", Tenths(to));
}

// The highest and lowest points of a column, where the curve does not enter or leave there.
fn extremes(rt: &impl Print, trace: &Trace) {
    let (top, bottom) = (trace.top, trace.bottom);
    if trace.enters < trace.leaves {
        if top < trace.enters {
            rise(rt, top);
        }
        if bottom > trace.leaves {
            rise(rt, bottom);
        }
    } else {
        if bottom > trace.enters {
            rise(rt, bottom);
        }
        if top < trace.leaves {
            rise(rt, top);
        }
    }
}

// The curve in a column, behind the letter that leads to it.
fn through(rt: &impl Print, trace: &Trace, letter: char) {
    let _ = print!(rt; "{letter}{}", Point(trace.enters_at, trace.enters));
    if (trace.enters_at == trace.leaves_at) & (trace.top == trace.bottom) {
        return;
    }
    extremes(rt, trace);
    let _ = print!(rt; "L{}", Point(trace.leaves_at, trace.leaves));
}

pub fn curve(rt: &impl Print, table: &Table<'_>) {
    let _ = print!(rt; "<path class=\"curve\" d=\"");
    let mut letter = 'M';
    for column in table.columns {
        if let Some(trace) = &column.trace {
            through(rt, trace, letter);
            letter = 'L';
        }
    }
    let _ = println!(rt; "\"/>");
}

// Where the time is 0 there is a point and no curve.
pub fn point(rt: &impl Print, table: &Table<'_>) {
    if let Some(trace) = &table.columns[0].trace {
        let _ = println!(rt;
            "<circle r=\"4\" class=\"point\" cx=\"80\" cy=\"{}\"/>",
            Tenths(trace.leaves)
        );
    }
}
