// Where the walk stands: the next phi and statement, where their inputs and items begin, and the next local's number.
#[derive(Clone, Copy)]
pub struct Walk {
    pub phi: u32,
    pub stmt: u32,
    pub input: u32,
    pub item: u32,
    pub next: u32,
}
