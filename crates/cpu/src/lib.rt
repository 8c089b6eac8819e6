// One instruction, on registers and RAM that are lent.
#![tactic(auto)]

mod apply;
mod execute;

pub use execute::advance;
