//! Tests of what no row of a row program can say: files that fail in the middle, and words that are no text. They stand in a crate of their
//! own, since a crate with tests is proved twice.
#![tactic(auto)]

#[cfg(test)]
mod files;
#[cfg(test)]
mod words;
