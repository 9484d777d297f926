// The field, the order and the division that a sheet command names.
//
// operands   the operands of the command
// unnamed    what they do not name
// choose     what is done under those that they name
#![tactic(auto)]

pub mod choose;
pub mod operands;
#[cfg(test)]
mod tests;
pub mod unnamed;
