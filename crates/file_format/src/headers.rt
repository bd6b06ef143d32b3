// The three headers: "A header is 32 bytes: 4 bytes magic, 1 version (0), 2 entry size, 1 name length, name, zeros to the end."
ghost use Rattle.std.specs.Prelude.{◌≡◌, ◌≤◌, length, take};
ghost use Rattle.byte_strings.specs.Lists.{put, same_list};
ghost use Rattle.file_format.specs.Headers.{bitfield_header, signatures_header, tree_header};

const BITFIELD_HEADER: [u8; 32] =
    *b"\x05\x02\x57\x00\x00\x0d\x00\x00\0\0\0\0\0\0\0\0\0\0\0\0\0\0\0\0\0\0\0\0\0\0\0\0";

const SIGNATURES_HEADER: [u8; 32] =
    *b"\x05\x02\x57\x01\x00\x00\x40\x07Ed25519\0\0\0\0\0\0\0\0\0\0\0\0\0\0\0\0\0";

const TREE_HEADER: [u8; 32] =
    *b"\x05\x02\x57\x02\x00\x00\x28\x07BLAKE2b\0\0\0\0\0\0\0\0\0\0\0\0\0\0\0\0\0";

// The header of the tree file.
#[tactic(auto, unfolding(byte_strings::specs::Numbers::be, crate::specs::Headers::front, crate::specs::Headers::header, crate::specs::Headers::tree_header))]
pub fn tree_header() -> [u8; 32]
    ensures { result ≡ tree_header }
{
    TREE_HEADER
}

// The header of the signatures file.
#[tactic(auto, unfolding(byte_strings::specs::Numbers::be, crate::specs::Headers::front, crate::specs::Headers::header, crate::specs::Headers::signatures_header))]
pub fn signatures_header() -> [u8; 32]
    ensures { result ≡ signatures_header }
{
    SIGNATURES_HEADER
}

// The header of the bitfield file.
#[tactic(auto, unfolding(byte_strings::specs::Numbers::be, crate::specs::Headers::front, crate::specs::Headers::header, crate::specs::Headers::bitfield_header))]
pub fn bitfield_header() -> [u8; 32]
    ensures { result ≡ bitfield_header }
{
    BITFIELD_HEADER
}

// Inner: whether a file that has room for a header starts with this one.
pub fn has_header(xs: &[u8], header: &[u8; 32]) -> bool
    requires { 32 ≤ length xs.now }
    ensures { result ≡ same_list (take 32 xs.now) header.now }
{
    byte_strings::same(&xs[0..32], header)
}

// Inner: a header at the front of a file that has room for it.
pub fn write_header(xs: &mut [u8], header: &[u8; 32])
    requires { 32 ≤ length xs.old }
    ensures { xs.new ≡ put xs.old 0 header.now }
{
    byte_strings::copy_to(xs, 0, header);
}
