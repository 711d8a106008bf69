// What the program writes: a line for each call, and how many of the answers differ.
use crate::call::Kind;
use crate::walk::{Cut, Tally};
use std::rt::HostRuntime;

fn calls(rt: &HostRuntime, counts: &[u64; 48]) {
    for (number, count) in counts.iter().enumerate() {
        if let Ok(Kind::Call(call)) = Kind::try_from(number as u32) {
            let _ = println!(rt; "{call} {count}");
        }
    }
}

pub fn all(rt: &HostRuntime, found: Result<Tally, Cut>) {
    match found {
        Ok(tally) => {
            calls(rt, &tally.counts);
            let _ = println!(rt; "compared {}", tally.cases);
            if let Some(first) = tally.first {
                let _ = println!(rt; "the first that differs is case {first}");
            }
            let _ = println!(rt; "differences {}", tally.differences);
        }
        Err(cut) => {
            let _ = println!(rt;
                "the list is cut or cannot be read behind case {}",
                cut.cases
            );
        }
    }
}
