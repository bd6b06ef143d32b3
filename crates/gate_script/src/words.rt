// The words of a script, by their first two letters.
use std::convert::TryFrom;

#[derive(Clone, Copy)]
pub enum Word {
    Lend,
    Told,
    Swap,
    Remark,
    Edit(Edit),
    Write(Write),
    Ask(Ask),
    AskCopy(AskCopy),
    BothWays(Ways),
    OfTwo(OfTwo),
    // A packet of the second register, in a part of the text.
    Bring,
    Check,
    Walk,
}

// Bytes changed by hand.
#[derive(Clone, Copy)]
pub enum Edit {
    Flip,
    Put,
    Fill,
}

// Calls that may write, on the first register or copy.
#[derive(Clone, Copy)]
pub enum Write {
    Start,
    Grow,
    Append,
    List,
    Sign,
    Release,
    MakeCopy,
    TakeIn,
    ReleaseCopy,
}

// Calls that write nothing, on the first register.
#[derive(Clone, Copy)]
pub enum Ask {
    // The hash of a part of the text, and bytes that are there.
    Hash,
    Show,
    Audit,
    // Parts of an audit.
    Cut,
    Root,
    Old,
    Preview,
    // The stored entry of a leaf.
    Entry,
    Search,
    Place,
    Byte,
    Packet,
}

// Calls that write nothing, on the first copy.
#[derive(Clone, Copy)]
pub enum AskCopy {
    Audit,
    Cut,
    Root,
    Old,
    Entry,
    Get,
    Packet,
    Find,
    Node,
}

// The quick way, a stroke, and the short way.
#[derive(Clone, Copy)]
pub enum Ways {
    Places,
    Bytes,
    Searches,
    CopyPlaces,
    CopyBytes,
    CopySearches,
}

// Calls on two registers.
#[derive(Clone, Copy)]
pub enum OfTwo {
    Compare,
    // Parts of a comparison.
    Cut,
    Get,
}

// The calls on a copy begin with a capital letter.
const WORDS: [(&[u8], Word); 49] = [
    (b"le", Word::Lend),
    (b"to", Word::Told),
    (b"sw", Word::Swap),
    (b"# ", Word::Remark),
    (b"fl", Word::Edit(Edit::Flip)),
    (b"pu", Word::Edit(Edit::Put)),
    (b"fi", Word::Edit(Edit::Fill)),
    (b"st", Word::Write(Write::Start)),
    (b"gr", Word::Write(Write::Grow)),
    (b"ap", Word::Write(Write::Append)),
    (b"li", Word::Write(Write::List)),
    (b"si", Word::Write(Write::Sign)),
    (b"re", Word::Write(Write::Release)),
    (b"Ma", Word::Write(Write::MakeCopy)),
    (b"Ta", Word::Write(Write::TakeIn)),
    (b"Re", Word::Write(Write::ReleaseCopy)),
    (b"ha", Word::Ask(Ask::Hash)),
    (b"sh", Word::Ask(Ask::Show)),
    (b"au", Word::Ask(Ask::Audit)),
    (b"cu", Word::Ask(Ask::Cut)),
    (b"ro", Word::Ask(Ask::Root)),
    (b"ol", Word::Ask(Ask::Old)),
    (b"pr", Word::Ask(Ask::Preview)),
    (b"en", Word::Ask(Ask::Entry)),
    (b"se", Word::Ask(Ask::Search)),
    (b"pl", Word::Ask(Ask::Place)),
    (b"by", Word::Ask(Ask::Byte)),
    (b"pa", Word::Ask(Ask::Packet)),
    (b"Au", Word::AskCopy(AskCopy::Audit)),
    (b"Cu", Word::AskCopy(AskCopy::Cut)),
    (b"Ro", Word::AskCopy(AskCopy::Root)),
    (b"Ol", Word::AskCopy(AskCopy::Old)),
    (b"En", Word::AskCopy(AskCopy::Entry)),
    (b"Ge", Word::AskCopy(AskCopy::Get)),
    (b"Pa", Word::AskCopy(AskCopy::Packet)),
    (b"Fi", Word::AskCopy(AskCopy::Find)),
    (b"No", Word::AskCopy(AskCopy::Node)),
    (b"sp", Word::BothWays(Ways::Places)),
    (b"sb", Word::BothWays(Ways::Bytes)),
    (b"ss", Word::BothWays(Ways::Searches)),
    (b"Sp", Word::BothWays(Ways::CopyPlaces)),
    (b"Sb", Word::BothWays(Ways::CopyBytes)),
    (b"Ss", Word::BothWays(Ways::CopySearches)),
    (b"co", Word::OfTwo(OfTwo::Compare)),
    (b"xw", Word::OfTwo(OfTwo::Cut)),
    (b"ge", Word::OfTwo(OfTwo::Get)),
    (b"br", Word::Bring),
    (b"ch", Word::Check),
    (b"wa", Word::Walk),
];

// Letters that no word begins with.
#[derive(Clone, Copy)]
pub struct NoWord;

impl TryFrom<&[u8]> for Word {
    type Error = NoWord;

    fn try_from(letters: &[u8]) -> Result<Word, NoWord> {
        WORDS
            .iter()
            .find(|entry| entry.0 == letters)
            .map(|entry| entry.1)
            .ok_or(NoWord)
    }
}
