// The worked examples of keyframe tracks, asked of the library: a line for each, and how many hold.
#![tactic(auto)]

mod answers;
mod tracks;

use std::rt::HostRuntime;

fn print_examples(rt: &HostRuntime) {
    let (k1, k2, k3) = (tracks::k1(), tracks::k2(), tracks::k3());
    for (name, holds) in [("K1", k1), ("K2", k2), ("K3", k3)] {
        let _ = println!(rt; "{name} {}", if holds { "ok" } else { "differs" });
    }
    let _ = println!(rt; "end {}", u8::from(k1) + u8::from(k2) + u8::from(k3));
}

// What can't be written is left out.
fn main(rt: HostRuntime) {
    print_examples(&rt);
}
