// Coordinates grouped before storing: words of 4 big-endian bytes become differences from the word before, and then all first bytes stand
// together, all second bytes, and so on. `ungroup` is the way back. Both are judged before the buffer is written.
#![tactic(auto)]

ghost use Rattle.std.specs.Prelude.{◌≡◌, ◌*◌, ◌<◌, ◌≤◌, length};
ghost use Rattle.answer_types.specs.Meaning.{said};
ghost use Rattle.byte_strings.specs.Lists.{put};
ghost use Rattle.coordinates.specs.Grouping.{words, difference, planes, grouped, gathered, restored, ungrouped};
ghost use Rattle.coordinates.specs.Post.{verdict, Written};
ghost use Rattle.coordinates.specs.Inner.{Worded};

use answer_types::Refusal;

// Number 7, then number 14, of bytes of a length and a buffer's room.
fn judge(long: usize, room: usize) -> Result<(), Refusal>
    ensures { said result ≡ verdict long room }
{
    if 65536 < long {
        return answer_types::refuse(7);
    }
    if room < long {
        return answer_types::refuse(14);
    }
    Ok(())
}

// Inner: the four planes of the differences, at the front of a buffer that has room for them.
fn write_planes(bytes: &[u8], n: usize, out: &mut [u8])
    requires { Worded bytes.now n × 4 * n ≤ length out.old }
    ensures { out.new ≡ put out.old 0 (planes (difference bytes.now) n) }
{
    let mut before: u32 = 0;
    for i in 0..n {
        let word = byte_strings::read_be32(bytes, 4 * i) as u32;
        let difference = word.wrapping_sub(before);
        let d = byte_strings::be32(difference);
        out[i] = d[0];
        out[n + i] = d[1];
        out[2 * n + i] = d[2];
        out[3 * n + i] = d[3];
        before = word;
    }
}

// Inner: the number whose bytes stand at place i of the four planes. Read from the lowest byte on: by `from_be_bytes` a word takes 19 instructions, not 18.
fn gather(bytes: &[u8], n: usize, i: usize) -> u32
    requires { Worded bytes.now n × i < n }
    ensures { result ≡ gathered bytes.now i }
{
    u32::from_le_bytes([bytes[3 * n + i], bytes[2 * n + i], bytes[n + i], bytes[i]])
}

// Inner: the words that the differences in the four planes add up to, at the front of a buffer that has room for them.
fn write_words(bytes: &[u8], n: usize, out: &mut [u8])
    requires { Worded bytes.now n × 4 * n ≤ length out.old }
    ensures { out.new ≡ put out.old 0 (words (restored bytes.now) n) }
{
    let mut word: u32 = 0;
    for i in 0..n {
        word = word.wrapping_add(gather(bytes, n, i));
        let d = byte_strings::be32(word);
        byte_strings::copy_to(out, 4 * i, &d);
    }
}

// The bytes grouped, at the front of the buffer, the rest as it was.
pub fn group(bytes: &[u8], out: &mut [u8]) -> Result<(), Refusal>
    ensures { Written grouped bytes.now out.old result out.new }
{
    judge(bytes.len(), out.len())?;
    let n = bytes.len() / 4;
    let end = 4 * n;
    write_planes(bytes, n, out);
    byte_strings::copy_to(out, end, &bytes[end..]);
    Ok(())
}

// Grouped bytes as they were before, at the front of the buffer, the rest as it was.
pub fn ungroup(bytes: &[u8], out: &mut [u8]) -> Result<(), Refusal>
    ensures { Written ungrouped bytes.now out.old result out.new }
{
    judge(bytes.len(), out.len())?;
    let n = bytes.len() / 4;
    let end = 4 * n;
    write_words(bytes, n, out);
    byte_strings::copy_to(out, end, &bytes[end..]);
    Ok(())
}
