// Which of the two filters a worker serves.

// Which level of a window is kept.
#[derive(Clone, Copy)]
pub enum Extreme {
    Least,
    Greatest,
}
