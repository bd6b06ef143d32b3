// Coordinates grouped before storing, and back. No register is lent.
ghost use Rattle.std.specs.Prelude.{◌≡◌, length};
ghost use Rattle.coordinates.specs.Grouping.{grouped, ungrouped};
ghost use Rattle.coordinates.specs.Post.{verdict, after};
ghost use Rattle.c_encoding.specs.Encoding.{encoded};

// `bytes` grouped, at the front of `out`, the rest as it was.
#[unsafe(no_mangle)]
pub extern "C" fn sleep_flat_group(bytes: &[u8], out: &mut [u8], answer: &mut [u64; 3])
    ensures answers { answer.new ≡ encoded (verdict (length bytes.now) (length out.old)) }
    ensures buffer { out.new ≡ after grouped bytes.now out.old }
{
    *answer = c_encoding::encode(coordinates::group(bytes, out));
}

// Grouped `bytes` as they were before, at the front of `out`, the rest as it was.
#[unsafe(no_mangle)]
pub extern "C" fn sleep_flat_ungroup(bytes: &[u8], out: &mut [u8], answer: &mut [u64; 3])
    ensures answers { answer.new ≡ encoded (verdict (length bytes.now) (length out.old)) }
    ensures buffer { out.new ≡ after ungrouped bytes.now out.old }
{
    *answer = c_encoding::encode(coordinates::ungroup(bytes, out));
}
