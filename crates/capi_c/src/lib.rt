// The calls of the C interface, exported. Each is the call of the same name in capi, and promises what it promises.
#![tactic(auto)]

mod easings;
mod logs;
mod replays;
mod tracks;
mod tweens;
