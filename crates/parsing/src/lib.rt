// Text as bytes: the fields of a line, a number in decimal, bytes from hex digits, the front and the end of a text.
#![tactic(auto)]

pub mod fields;
pub mod hex;
pub mod numbers;
pub mod text;
