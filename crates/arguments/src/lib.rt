// What the arguments of a program say: numbers, and the words of the questions.
#![tactic(auto)]

ghost use Rattle.std.specs.Prelude.{◌≡◌};
ghost use Rattle.arguments.specs.inner.Number.{digit_of, number_of};
ghost use Rattle.arguments.specs.inner.Word.{same, word_of, later_word_of, numbers_of, may_be_alone};

// The digit that a byte shows, or 10.
fn digit_of(b: u8) -> u64
    ensures { result ≡ digit_of b }
{
    if b < 48 {
        return 10;
    }
    if 57 < b {
        return 10;
    }
    (b - 48) as u64
}

// One or more decimal digits, at most 4,294,967,295.
pub fn number_of(s: &[u8]) -> Option<u32>
    ensures { result ≡ number_of s.now }
{
    if s.len() == 0 {
        return None;
    }
    let mut value: u64 = 0;
    for i in 0..s.len() {
        let digit = digit_of(s[i]);
        if 9 < digit {
            return None;
        }
        value = value * 10 + digit;
        if 4294967295 < value {
            return None;
        }
    }
    Some(value as u32)
}

// Whether two words have the same bytes.
pub fn is_word(s: &[u8], word: &[u8]) -> bool
    ensures { result ≡ same s.now word.now }
{
    s == word
}

#[derive(Clone, Copy)]
pub enum Word {
    Verdict,
    Why,
    Size,
    Trace,
    Sources,
    Property,
    Crop,
    Orientation,
    Transforms,
    Points,
    Body,
    Unknown,
}

// Which question a word asks.
pub fn word_of(s: &[u8]) -> Word
    ensures { result ≡ word_of s.now }
{
    if is_word(s, b"verdict") {
        return Word::Verdict;
    }
    if is_word(s, b"why") {
        return Word::Why;
    }
    if is_word(s, b"size") {
        return Word::Size;
    }
    if is_word(s, b"trace") {
        return Word::Trace;
    }
    if is_word(s, b"sources") {
        return Word::Sources;
    }
    if is_word(s, b"property") {
        return Word::Property;
    }
    later_word_of(s)
}

// The words that came with document 02.
fn later_word_of(s: &[u8]) -> Word
    ensures { result ≡ later_word_of s.now }
{
    if is_word(s, b"crop") {
        return Word::Crop;
    }
    if is_word(s, b"orientation") {
        return Word::Orientation;
    }
    if is_word(s, b"transforms") {
        return Word::Transforms;
    }
    if is_word(s, b"points") {
        return Word::Points;
    }
    if is_word(s, b"body") {
        return Word::Body;
    }
    Word::Unknown
}

// How many numbers follow a question's word.
pub fn numbers_of(w: Word) -> usize
    ensures { result ≡ numbers_of w }
{
    match w {
        Word::Verdict | Word::Why | Word::Unknown => 0,
        Word::Size
        | Word::Sources
        | Word::Crop
        | Word::Orientation
        | Word::Transforms
        | Word::Body => 1,
        Word::Property => 2,
        Word::Trace => 3,
        Word::Points => 5,
    }
}

// Whether they may be left out: without an item, `orientation` is asked of the primary one.
pub fn may_be_alone(w: Word) -> bool
    ensures { result ≡ may_be_alone w }
{
    matches!(
        w,
        Word::Verdict | Word::Why | Word::Orientation | Word::Unknown
    )
}
