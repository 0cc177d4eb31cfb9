// Which name each value has, as a code: 0 none, 1 the register's own name, 2 k the parameter `a` k, 2 k + 1 the local `v` k.
#![tactic(auto)]

pub mod entry;
pub mod key;
