// The lines of a data file, the words of a line, and a sum of the file's bytes.
#![tactic(auto)]

ghost use Rattle.std.specs.Prelude.{◌≡◌, ◌-◌, ◌≤◌, ◌||◌, ◌==◌, length};
ghost use Rattle.std.specs.List.{position, before_first, after_first};
ghost use Rattle.std.specs.Iterator.{YieldsFirstRef, item_count};
ghost use Rattle.scan.specs.Words.{largest, shifted, spelled, lead_of, value_of, after_word, lines_of};

pub mod sums;

// A word: its first byte and the number that its digits spell. Of no word both are 0, as of the numbers that a line leaves out.
#[derive(Clone, Copy)]
pub struct Word {
    pub lead: u8,
    pub value: u64,
    pub ghost small: { value ≤ largest },
}

// What is left of a text that is read word by word; a space or LF ends a word.
#[derive(Clone, Copy)]
pub struct Words<'a> {
    pub rest: &'a [u8],
}

// What is left of a text that is read line by line.
#[derive(Clone, Copy)]
pub struct Lines<'a> {
    pub rest: &'a [u8],
}

// The first place where `a` or `b` stands.
fn find(text: &[u8], a: u8, b: u8) -> Option<usize>
    ensures { result ≡ position (λ x. x == a || x == b) text.now }
{
    text.iter().position(|x| *x == a || *x == b)
}

// What stands before the first `a` or `b`, and what stands after it.
fn cut(text: &[u8], a: u8, b: u8) -> (&[u8], &[u8])
    ensures before { result.0.now ≡ before_first (λ x. x == a || x == b) text.now }
    ensures after { result.1.now ≡ after_first (λ x. x == a || x == b) text.now }
{
    match find(text, a, b) {
        Some(n) => (&text[..n], &text[n + 1..]),
        None => (text, &[]),
    }
}

// One digit more; any other byte, as the point, changes nothing, nor does a digit too many.
fn shifted(value: u64, b: u8) -> u64
    ensures { result ≡ shifted value b }
{
    if b.is_ascii_digit() && value <= 1_000_000_000_000_000_000 {
        10 * value + u64::from(b - b'0')
    } else {
        value
    }
}

// The number that the digits of a word spell.
fn number(word: &[u8]) -> u64
    ensures spelled { result ≡ spelled word.now }
    ensures small { result ≤ largest }
{
    word.iter().fold(0, |value, b| shifted(value, *b))
}

impl<'a> Words<'a> {
    // The next word; behind the last there is none.
    pub fn next_word(&mut self) -> Word
        ensures lead { result.lead ≡ lead_of self.old.rest.now }
        ensures value { result.value ≡ value_of self.old.rest.now }
        ensures rest { self.new.rest.now ≡ after_word self.old.rest.now }
        ensures further { length self.new.rest.now ≤ length self.old.rest.now - 1 }
    {
        let text = self.rest;
        let (word, rest) = cut(text, b' ', b'\n');
        self.rest = rest;
        Word {
            lead: text.first().copied().unwrap_or(0),
            value: number(word),
        }
    }
}

impl<'a> Iterator for Lines<'a> {
    type Item = &'a [u8];

    ghost next_gives = { YieldsFirstRef (λ s. lines_of s.rest.now) };

    ghost remaining = { item_count (λ s. lines_of s.rest.now) };

    fn next(&mut self) -> Option<&'a [u8]> {
        if self.rest.is_empty() {
            return None;
        }
        let (line, rest) = cut(self.rest, b'\n', b'\n');
        self.rest = rest;
        Some(line)
    }
}
