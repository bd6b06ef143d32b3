// Varints, and the fields of a record by their number: read at a place of lent bytes, and put at a place of a lent buffer.
#![tactic(auto)]

mod putting;
mod rows;
mod varints;

pub use putting::{put_bytes, put_number, put_part};
pub use rows::{Part, bytes_row, number_row};
pub use varints::Read;
