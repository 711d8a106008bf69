// The whole picture.
#[cfg(test)]
mod tests;

use crate::columns::Table;
use crate::course::Course;
use crate::curve::{curve, point};
use crate::field::{axes, grid};
use crate::labels::labels;
use crate::marks::{marks, stop};
use crate::page::{Paper, up_to_error};
use crate::title::title;
use std::rt::HostRuntime;
use std::{fmt, io};
use tween::Tween;

// The start of the file with the look of each class, by lines.
const HEAD: [&str; 10] = [
    "<svg xmlns=\"http://www.w3.org/2000/svg\" viewBox=\"0 0 960 420\" width=\"960\" height=\"420\">",
    "<style>text{font-family:sans-serif;font-size:11px;fill:#222}",
    ".title{font-size:13px;font-weight:bold}.sum{font-size:12px}",
    ".t{text-anchor:middle}.v,.more,.stopped{text-anchor:end}.more{fill:#666}",
    "path{fill:none}.grid{stroke:#ddd}.axis{stroke:#222}",
    ".curve{stroke:#0b5394;stroke-width:1.6;stroke-linejoin:round;stroke-linecap:round}.point{fill:#0b5394}",
    ".gap{stroke:#f2b632;stroke-opacity:.6;stroke-width:6}.missing{fill:#8a5a00}.gaps{fill:#f2b632}",
    ".pass{stroke:#444}.burst{stroke:#222;stroke-dasharray:3 3}",
    ".repeat,.repeats{fill:#7b3294}.stop{stroke:#c00;stroke-width:2}.stopped{fill:#c00}</style>",
    "<rect width=\"960\" height=\"420\" fill=\"#fff\"/>",
];

// A count with its noun, behind a sign in the colour of its marks; nothing for 0.
#[derive(Clone, Copy)]
struct Count<'a> {
    n: u64,
    sign: &'a str,
    one: &'a str,
    many: &'a str,
}

impl<'a> fmt::Display for Count<'a> {
    fn fmt<W: fmt::Write>(&self, f: &mut fmt::Formatter<W>) -> fmt::Result {
        match self.n {
            0 => Ok(()),
            1 => write!(f, " &#160; {} 1 {}", self.sign, self.one),
            n => write!(f, " &#160; {} {n} {}", self.sign, self.many),
        }
    }
}

// The counts of what is marked, and the end of their line.
fn print_marks(rt: &impl Print, c: &Course) {
    let passes = Count {
        n: c.replay.folds,
        sign: "|",
        one: "pass",
        many: "passes",
    };
    let missing = Count {
        n: c.replay.missing,
        sign: "<tspan class=\"gaps\">&#9632;</tspan>",
        one: "record missing by the numbers",
        many: "records missing by the numbers",
    };
    let repeats = Count {
        n: c.repeats,
        sign: "<tspan class=\"repeats\">&#9660;</tspan>",
        one: "repeat",
        many: "repeats",
    };
    let _ = println!(rt; "{passes}{missing}{repeats}</text>");
}

// How many passes of a ramp are drawn, and of how many; None where they have no end.
#[derive(Clone, Copy)]
pub struct Shown {
    pub passes: u32,
    pub of: Option<u32>,
}

// Which passes they are, where they are not all.
fn print_shown(rt: &impl Print, shown: Shown) {
    match shown.of {
        Some(all) if all == shown.passes => {}
        Some(all) => {
            let _ = print!(rt; ", first {} of {all} passes", shown.passes);
        }
        None => {
            let _ = print!(rt; ", first {} passes", shown.passes);
        }
    }
}

// All below the two lines of text.
fn body(rt: &impl Print, table: &Table<'_>, c: &Course) {
    let frame = table.frame;
    grid(rt, frame);
    axes(rt, frame);
    curve(rt, table);
    if c.time <= 0.0 {
        point(rt, table);
    }
    marks(rt, table, c);
    labels(rt, table, c.refused.is_some());
    stop(rt, table, c);
    let _ = println!(rt; "</svg>");
}

// The start of the line below the title, behind all above it.
fn open(rt: &impl Paper, t: Tween) {
    for line in HEAD {
        let _ = println!(rt; "{line}");
    }
    title(rt, t);
    let _ = print!(rt; "<text class=\"sum\" x=\"80\" y=\"40\">");
}

// Prints the picture of a log that was replayed into a ramp. On the runtime's handle what can't be written is left
// out. The title's numbers, mode and easing are printed by `tools`, which answers no error.
pub fn print_log(rt: &impl Paper, t: Tween, table: &Table<'_>, c: &Course) {
    open(rt, t);
    let noun = if c.records == 1 { "record" } else { "records" };
    let _ = print!(rt; "{} {noun}", c.records);
    print_marks(rt, c);
    body(rt, table, c);
}

// Prints the picture of a ramp alone.
pub fn print_ramp(rt: &impl Paper, t: Tween, table: &Table<'_>, c: &Course, shown: Shown) {
    open(rt, t);
    let _ = print!(rt; "the ramp alone");
    print_shown(rt, shown);
    print_marks(rt, c);
    body(rt, table, c);
}

// `print_log` up to the first error, which is answered, but for what `tools` prints.
pub fn picture_of_log(rt: &HostRuntime, t: Tween, table: &Table, c: &Course) -> io::Result<()> {
    up_to_error(rt, |page| print_log(page, t, table, c))
}

// `print_ramp` up to the first error, as `picture_of_log`.
pub fn picture_of_ramp(
    rt: &HostRuntime,
    t: Tween,
    table: &Table,
    c: &Course,
    shown: Shown,
) -> io::Result<()> {
    up_to_error(rt, |page| print_ramp(page, t, table, c, shown))
}
