// Runs the script on standard input, a call of the library on each line, and prints each line with its answer, for comparison with the text in stdout.
// The registers of the script are parts of four arrays that held other bytes before; chunks, signatures and packets are parts of a fifth.
#![tactic(auto)]

mod answers;
mod asked;
mod cuts;
mod edited;
mod packets;
mod pairs;
mod partial;
mod parts;
mod reading;
mod ways;
mod words;
mod written;

use gate_printing::{print, text};
use parts::Both;
use reading::Line;
use words::Word;

fn main() {
    let mut tree = [0xa5u8; 1320000];
    let mut signatures = [0xa5u8; 1054000];
    let mut bitfield = [0xa5u8; 18000];
    let mut data = [0xa5u8; 140000];
    let mut text = [0xa5u8; 66000];
    let mut script = [0u8; 524288];
    scripted(
        &mut tree,
        &mut signatures,
        &mut bitfield,
        &mut data,
        &mut text,
        &mut script,
    );
}

// Apart from `main`, and lent as arrays, which bring their lengths along: in `main` the checker runs out of stack over the bounds of these slices.
fn scripted(
    tree: &mut [u8; 1320000],
    signatures: &mut [u8; 1054000],
    bitfield: &mut [u8; 18000],
    data: &mut [u8; 140000],
    text: &mut [u8; 66000],
    script: &mut [u8; 524288],
) {
    let count = io::read_full(0, script);
    lines(tree, signatures, bitfield, data, text, &script[0..count]);
}

// Each line is printed again, and behind it its answer.
fn lines(
    tree: &mut [u8],
    signatures: &mut [u8],
    bitfield: &mut [u8],
    data: &mut [u8],
    space: &mut [u8],
    script: &[u8],
) {
    let mut both = Both::default();
    for ended in script.split_inclusive(|byte| *byte == b'\n') {
        let whole = ended.strip_suffix(b"\n").unwrap_or(ended);
        text(whole);
        let line = Line::from(whole);
        both = both.after(line);
        run(tree, signatures, bitfield, data, space, line, both);
        print("\n");
    }
}

// One line: bytes are changed by hand, or a call is made. What is lent and told is set already, and a remark says nothing.
fn run(
    tree: &mut [u8],
    signatures: &mut [u8],
    bitfield: &mut [u8],
    data: &mut [u8],
    text: &mut [u8],
    line: Line,
    both: Both,
) {
    let Both { first, second } = both;
    let Some(word) = line.word else {
        print(": ");
        return;
    };
    match word {
        Word::Lend | Word::Told | Word::Swap | Word::Remark => {}
        Word::Edit(word) => {
            edited::by(
                tree, signatures, bitfield, data, text, line, word, first.lent,
            )
        }
        Word::Write(word) => {
            written::by(tree, signatures, bitfield, data, text, line, word, first)
        }
        Word::Ask(word) => asked::by(tree, signatures, bitfield, data, text, line, word, first),
        Word::AskCopy(word) => partial::by(tree, bitfield, data, text, line, word, first),
        Word::BothWays(word) => ways::by(tree, signatures, bitfield, data, line, word, first),
        Word::OfTwo(word) => {
            let pair = pairs::ordered(line, word, both);
            pairs::by(tree, signatures, bitfield, data, line, word, pair)
        }
        Word::Bring => packets::bring(tree, signatures, bitfield, data, text, line, second),
        Word::Check => packets::checked(text, line),
        Word::Walk => packets::walked(text, line),
    }
}
