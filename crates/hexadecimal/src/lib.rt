// Bytes as hexadecimal text, and back.
#![tactic(auto)]

pub mod decode;
pub mod show;
