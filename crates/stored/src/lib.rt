// Stored tables: a sheet command and records of terms, read, checked and told as text.
//
// fault    what is wrong with a stored table
// record   the records of a stored table
// rest     what is left of a file
// row      a row of a stored table
// rows     the rows of its records
// text     a table as people write it
// show     a stored table, read and told as text
#![tactic(auto)]

pub mod fault;
mod record;
mod rest;
mod row;
mod rows;
pub mod show;
mod text;
