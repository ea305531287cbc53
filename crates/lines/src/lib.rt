// The lines that watchrun prints, as bytes, and those of tables' own.
#![tactic(auto)]

mod line;
mod named;
mod pen;
mod shown;
mod wording;

pub use line::{end_line, first_line, refused_line, step_line};
pub use named::channels_line;
pub use shown::shown_line;
