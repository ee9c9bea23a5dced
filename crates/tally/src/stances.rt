// Where a position stands between silence and exercise.
#[derive(Clone, Copy, PartialEq, Eq, Debug)]
pub enum Stance {
    Silent,
    Standing(u32),
    Noticed(u32),
    Whole,
}
