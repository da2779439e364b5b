// Examples that run: one for each rule of the table, of the tests and of the file.
#![tactic(auto)]

// Table files that examples damage and mend.
#[cfg(test)]
mod bounded;
#[cfg(test)]
mod filed;
pub mod files;
#[cfg(test)]
mod ordered;
#[cfg(test)]
mod rules;
#[cfg(test)]
mod single_bytes;
