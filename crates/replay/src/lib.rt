// A command file, carried out on one sheet, and the lines that it writes.
//
// command     the commands, with their operands as parts of the file
// stop        why a command is not carried out
// tell        the line of each answer
// play        the commands after the making, one after the other
// choose      the making: what the sheet command names, and the commands behind it on a sheet over that
// transcript  a whole command file and its transcript
#![tactic(auto)]

mod choose;
pub mod command;
mod play;
mod stop;
mod tell;
pub mod transcript;
