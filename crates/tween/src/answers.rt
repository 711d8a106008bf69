// What an accepted update answers.
use crate::record::Tween;

// folds counts the completing one too; running is false once the tween is Completed.
#[derive(Clone, Copy)]
pub struct Updated {
    pub tween: Tween,
    pub folds: u32,
    pub running: bool,
}
