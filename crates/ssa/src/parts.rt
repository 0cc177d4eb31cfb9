// What records are made of.

// A part of the text section.
#[derive(Clone, Copy)]
pub struct Text {
    pub start: u32,
    pub len: u32,
}
