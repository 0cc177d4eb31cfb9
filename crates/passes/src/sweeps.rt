// What a pass answers.

// How many rows there are behind it, and how many regions it formed.
#[derive(Clone, Copy, PartialEq, Eq)]
pub struct Formed {
    pub rows: usize,
    pub regions: usize,
}

// A row would stand inside more than 254 open braces, or there is no row left for a closing brace.
#[derive(Clone, Copy, PartialEq, Eq)]
pub struct TooDeep;
