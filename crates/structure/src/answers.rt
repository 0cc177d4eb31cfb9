// What the passes, and structuring as a whole, answer where they do not refuse.

// How many rows the passes leave, and how many ifs and loops they formed.
#[derive(Clone, Copy, PartialEq, Eq)]
pub struct Kept {
    pub rows: usize,
    pub ifs: usize,
    pub loops: usize,
}

// Of the finished lines: how many they are, their tokens and bytes, the ifs and loops formed, and the lines that begin with `if`.
#[derive(Clone, Copy, PartialEq, Eq)]
pub struct Counts {
    pub lines: usize,
    pub tokens: usize,
    pub bytes: usize,
    pub ifs: usize,
    pub loops: usize,
    pub tests: usize,
}
