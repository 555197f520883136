ghost use Rattle.std.specs.Prelude.{◌≡◌, ◌<◌, ◌≤◌, ◌∷◌, [], length, position, IfSome, MatchOption, not};
ghost use Rattle.std.specs.List.{position_or_len};
ghost use Rattle.debug_model.specs.ScriptText.{words_of, is_blank, is_not_empty};
ghost use Rattle.script_lang.specs.Cursor.{StartsWithWord};

use std::marker::Model;

/// Whether a byte parts words: a space, a tab or a carriage return.
pub(crate) fn is_blank(byte: u8) -> bool
    ensures { result ≡ is_blank byte }
{
    matches!(byte, b' ' | b'\t' | b'\r')
}

/// The words of a line that are left to read, from left to right.
#[derive(Drop)]
pub(crate) struct Words<'a> {
    rest: &'a [u8],
}

impl<'a> Model for Words<'a> {
    ghost use Rattle.std.specs.Prelude.{ℕ, List};
    ghost use Rattle.debug_model.specs.ScriptText.{words_of};

    ghost Value = { List (List ℕ) };

    ghost view = { λ w. words_of w.rest.now };
}

impl<'a> Words<'a> {
    /// The words of a line without its comment.
    pub(crate) fn of(content: &'a [u8]) -> Words<'a>
        ensures { result ≡ words_of content.now }
    {
        Words { rest: content }
    }

    /// Whether no word is left.
    pub(crate) fn is_empty(&self) -> bool
        ensures { result ≡ not (is_not_empty self.now) }
    {
        next_word(self.rest).is_none()
    }

    /// Takes the next word, where there is one.
    pub(crate) fn next(&mut self) -> Option<&'a [u8]>
        ensures { MatchOption result ((self.old ≡ []) × (self.new ≡ [])) (λ word. self.old ≡ word.now ∷ self.new) }
    {
        let (word, rest) = next_word(self.rest)?;
        self.rest = rest;
        Some(word)
    }
}

/// The first word and what follows it, where there is a word.
fn next_word(content: &[u8]) -> Option<(&[u8], &[u8])>
    ensures { MatchOption result (words_of content.now ≡ []) (λ found. words_of content.now ≡ found.0.now ∷ words_of found.1.now) }
{
    let start = after_blanks(content);
    if start.is_empty() {
        return None;
    }
    Some(start.split_at(word_end(start)))
}

/// The bytes from the first word on.
fn after_blanks(content: &[u8]) -> &[u8]
    ensures same { words_of result.now ≡ words_of content.now }
    ensures start { StartsWithWord result.now }
{
    let mut rest = content;
    while let [byte, after @ ..] = rest {
        if !is_blank(*byte) {
            break;
        }
        rest = after;
    }
    rest
}

/// How many bytes come before the first blank.
fn word_end(content: &[u8]) -> usize
    ensures place { result ≡ position_or_len is_blank content.now }
    ensures inside { result ≤ length content.now }
{
    match first_blank(content) {
        Some(place) => place,
        None => content.len(),
    }
}

/// The place of the first blank.
fn first_blank(content: &[u8]) -> Option<usize>
    ensures place { result ≡ position is_blank content.now }
    ensures inside { IfSome result (λ place. place < length content.now) }
{
    content.iter().position(|byte| is_blank(*byte))
}
