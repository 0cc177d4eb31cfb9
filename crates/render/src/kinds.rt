// The kinds of tokens.
pub const TEXT: u32 = 0;

pub const KEYWORD: u32 = 3;

pub const SYMBOL: u32 = 4;

pub const ADDRESS: u32 = 5;

pub const PUNCT: u32 = 6;
