// A time and a progress are both an f32. Two types keep them apart: a track is asked for the one
// and sought by the other.
#![tactic(auto)]

// A time in seconds.
#[derive(Clone, Copy)]
pub struct Seconds(pub f32);

// How far along: 0 at the start, 1 at the end.
#[derive(Clone, Copy)]
pub struct Progress(pub f32);
