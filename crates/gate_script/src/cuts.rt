// Parts of audits: a part of the tree entries and one of the bitfield's entries, and what the two say together.
use answer_types::Refusal;
use gate_printing::{Said, print};
use gate_samples::Told;
use number_types::TreeIndex;

pub fn of_register(t: &[u8], g: &[u8], b: &[u8], d: &[u8], told: Told, x: [u64; 16]) {
    let from = TreeIndex(x[1]);
    let to = TreeIndex(x[2]);
    let entries = parts_audit::tree_part(t, g, b, d, told.n, told.s, told.size, from, to);
    let rows = parts_audit::bitfield_part(t, g, b, d, told.n, told.s, told.size, x[3], x[4]);
    both(entries, rows);
}

pub fn of_copy(t: &[u8], b: &[u8], d: &[u8], n: u64, size: u64, x: [u64; 16]) {
    let from = TreeIndex(x[1]);
    let to = TreeIndex(x[2]);
    let entries = parts_copy_audit::tree_part(t, b, d, n, size, from, to);
    let rows = parts_copy_audit::bitfield_part(t, b, d, n, size, x[3], x[4]);
    both(entries, rows);
}

fn both(entries: Result<(), Refusal>, rows: Result<(), Refusal>) {
    let earlier = parts_audit::earlier(entries, rows);
    print(format_args!("{} {} {}", Said(entries), Said(rows), Said(earlier)));
}
