// The survey program's text (document 01, section 6), read: what a plate's text asks for, or its refusal.
//
// specs/ defines on lists of bytes the reading, with its lines and its order of judgement (what a line and a
// number are is defined in the crate text_lines, which reads them), the lines that are printed (the crate
// surveying prints them), and the whole answer as one function of the text.
#![tactic(auto)]

mod asking;
mod cursor;
mod line;
mod reading;

pub use asking::request;
pub use reading::{Header, MAX_PLATE};
