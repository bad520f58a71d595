//! A text cut into lines, and a line into words.
ghost use Rattle.std.specs.Prelude.{◌≡◌, ℕ, ◌<◌, List, [], ◌∷◌, length, MatchOption};
ghost use Rattle.std.specs.Iterator.{YieldsFirstRef, item_count};
ghost use Rattle.words.specs.Words.{IsCut, uncommented, first_line, later_lines, lines_of, blank, words_of};

use std::marker::Model;

/// A text cut before the first byte that passes a test.
fn split_before<F: Fn(u8) -> bool + Drop>(text: &[u8], passes: F) -> (&[u8], &[u8])
    requires { F.IsAlwaysCallable passes }
    ensures { IsCut (F.post passes) text.now result.0.now result.1.now }
{
    let end = text
        .iter()
        .position(|byte| passes(*byte))
        .unwrap_or(text.len());
    text.split_at(end)
}

/// The part of a line before its comment.
pub fn without_comment(line: &[u8]) -> &[u8]
    ensures { result.now ≡ uncommented line.now }
{
    split_before(line, |byte| byte == b'#').0
}

/// The first line of a text, and the text after it.
pub fn split_line(text: &[u8]) -> (&[u8], &[u8])
    ensures first { result.0.now ≡ first_line text.now }
    ensures later { result.1.now ≡ later_lines text.now }
    ensures shorter { 0 < length text.now → length result.1.now < length text.now }
{
    let (line, rest) = split_before(text, |byte| byte == b'\n');
    (line, rest.get(1..).unwrap_or(&[]))
}

fn is_blank(byte: u8) -> bool
    ensures { result ≡ blank byte }
{
    matches!(byte, b' ' | b'\t' | b'\r')
}

/// The first word, and what follows it.
pub fn next_word(text: &[u8]) -> Option<(&[u8], &[u8])>
    ensures { MatchOption result (words_of text.now ≡ []) (λ p. words_of text.now ≡ p.0.now ∷ words_of p.1.now) }
{
    let (_, text) = split_before(text, |byte| !is_blank(byte));
    let (word, rest) = split_before(text, is_blank);
    (!word.is_empty()).then_some((word, rest))
}

// Lines and words are two iterators of one shape, since each shows its own list of items. The library's iterators do not serve: `split` of a slice shows no list, and gives
// one item more after the last newline and empty ones between two blanks; the lines of byte strings lose a carriage return before the newline, and their fields are told
// by decoded characters.
/// The lines of a text, first to last.
#[derive(Drop)]
pub struct Lines<'a> {
    text: &'a [u8],
}

impl<'a> Model for Lines<'a> {
    ghost Value = { List (List ℕ) };

    ghost view = { λ lines. lines_of lines.text.now };
}

impl<'a> Lines<'a> {
    pub fn new(text: &'a [u8]) -> Lines<'a>
        ensures { result ≡ lines_of text.now }
    {
        Lines { text }
    }
}

#[tactic(auto, using(crate::proofs::Lines::lines_of_split))]
impl<'a> Iterator for Lines<'a> {
    type Item = &'a [u8];

    ghost next_gives = { YieldsFirstRef (λ lines. lines) };

    ghost remaining = { item_count (λ lines. lines) };

    fn next(&mut self) -> Option<&'a [u8]> {
        if self.text.is_empty() {
            return None;
        }
        let (line, later) = split_line(self.text);
        self.text = later;
        Some(line)
    }
}

/// The words of a text, first to last.
#[derive(Drop)]
pub struct Words<'a> {
    text: &'a [u8],
}

impl<'a> Model for Words<'a> {
    ghost Value = { List (List ℕ) };

    ghost view = { λ words. words_of words.text.now };
}

impl<'a> Words<'a> {
    pub fn new(text: &'a [u8]) -> Words<'a>
        ensures { result ≡ words_of text.now }
    {
        Words { text }
    }
}

impl<'a> Iterator for Words<'a> {
    type Item = &'a [u8];

    ghost next_gives = { YieldsFirstRef (λ words. words) };

    ghost remaining = { item_count (λ words. words) };

    fn next(&mut self) -> Option<&'a [u8]> {
        let (word, rest) = next_word(self.text)?;
        self.text = rest;
        Some(word)
    }
}
