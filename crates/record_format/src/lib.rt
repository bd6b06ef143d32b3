// The records in the chunks of a metadata register: the Header and the Stat, read of lent bytes and written; the definitions of all four.
#![tactic(auto)]

mod answers;
mod headers;
mod stats;

pub use answers::{give, refusal};
pub use headers::{read_header, write_header};
pub use stats::{Stat, number_fits, put_stat, read_stat, stat_fits};
