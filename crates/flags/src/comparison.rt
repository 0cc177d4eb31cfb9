// The parts of a comparison.

// What set the flags: CMP, TEST, TEST of an operand and itself, or arithmetic on a value.
#[derive(Clone, Copy)]
pub enum Setter {
    Cmp,
    Test,
    Same,
    Result,
}

#[derive(Clone, Copy)]
pub enum Sign {
    Equal,
    Unequal,
    Under,
    NotUnder,
    Over,
    NotOver,
}

// What stands on either side.
#[derive(Clone, Copy)]
pub enum Side {
    Left,
    Right,
    Difference,
    Both,
    Nought,
}

// What is printed.
#[derive(Clone, Copy)]
pub struct Shown {
    pub unsigned: bool,
    pub lhs: Side,
    pub sign: Sign,
    pub rhs: Side,
}

// A setter with its two expressions.
#[derive(Clone, Copy)]
pub struct Operands {
    pub by: Setter,
    pub left: u32,
    pub right: u32,
}

// What a block's flags were set by: two expressions, or the value that a statement assigns.
#[derive(Clone, Copy)]
pub enum Setting {
    Operands(Operands),
    Result(u32),
}
