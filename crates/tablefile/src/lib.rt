// The task table as a file of blocks: read, checked and written.
#![tactic(auto)]

// What the bytes of a record spell.
pub mod records;
// The bytes of a file, handed out in parts.
pub mod reader;
// The checks of a file's length and of its blocks.
pub mod checking;
// A record's bytes as a row.
pub mod decoding;
// Writing the file of a row list.
mod blocks;
mod check;
mod encoding;
mod gathering;
mod parts;
pub mod writing;
