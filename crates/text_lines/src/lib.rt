// A line of the survey program's text (document 01, section 6), read: where its value stands behind its name,
// and which number, edition or list of numbers these bytes are.
//
// It knows no plate: which lines a text has, and in which order they are judged, is the crate survey_text's.
#![tactic(auto)]

mod number;
mod value;

pub use number::{edition_in, list_in, number_in};
pub use value::{Value, value_at};
