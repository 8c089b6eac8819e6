// Rules 1 to 5 over the whole code, read straight through.
#![tactic(auto)]

mod broken;
mod tests;

pub use broken::{first_broken, lowest_broken};
