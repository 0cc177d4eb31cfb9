// How far the room is written, by value. The lent buffers are the limits: what does not fit into them makes the room full.
ghost use Rattle.std.specs.Prelude.{◌≡◌};
ghost use Rattle.room.specs.Blank.{fresh};

#[derive(Clone, Copy, PartialEq, Eq)]
pub struct Out {
    pub lines: usize,
    pub tokens: usize,
    pub bytes: usize,
    // The first token of the line: those before it are never merged with.
    pub start: usize,
    // Sticky: nothing more is written.
    pub full: bool,
}

impl Out {
    // Nothing is written yet.
    pub fn start() -> Out
        ensures { result ≡ fresh }
    {
        Out {
            lines: 0,
            tokens: 0,
            bytes: 0,
            start: 0,
            full: false,
        }
    }
}
