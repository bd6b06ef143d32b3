// What firmware links: the library's calls with addresses and 64-bit numbers alone, so that every C convention for 64-bit processors agrees on them. A
// slice is an address and a length, a reference to an array an address; what a call answers stands in an array of numbers that is lent as its last
// parameter, and is written on every call. include/sleep_register.h declares them, and has for each a front that gives C a struct.
#![tactic(auto)]

pub mod comparing;
pub mod grouping;
pub mod hashing;
pub mod jobs;
pub mod journals;
pub mod leaves;
pub mod lookups;
pub mod metadata;
pub mod packets;
pub mod partial;
pub mod partial_lookups;
pub mod partial_records;
pub mod parts;
pub mod registers;
pub mod short;
pub mod version;
pub mod waiting;
