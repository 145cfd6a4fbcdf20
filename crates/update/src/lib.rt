// Update texts: what an office enters or corrects, read from bytes and written to them.
#![tactic(auto)]

pub mod examples;
mod layout;
pub mod parts;
mod reader;
pub mod refusal;
#[cfg(test)]
mod tests;
mod writer;

pub use layout::MAX_TEXT_LEN;
