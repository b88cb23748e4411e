//! The tokens of a line: words, commas, colons and parentheses. Blanks only separate them.
ghost use Rattle.std.specs.Prelude.{◌≡◌, ◌≤◌, ℕ, IsTrue, List, length, option_map};
ghost use Rattle.std.specs.List.{prefix_len};
ghost use Rattle.rv_asm.specs.Bytes.{is_blank, is_mark, is_word_byte};
ghost use Rattle.rv_asm.specs.Tokens as spec;

use crate::bytes::{CLOSE, COMMA, OPEN, is_blank, is_word_byte};

/// How many blanks a text begins with.
fn blank_length(text: &[u8]) -> usize
    ensures length { result ≡ prefix_len is_blank text.now }
    ensures within { result ≤ length text.now }
{
    text.iter().take_while(|byte| is_blank(**byte)).count()
}

/// The text without the blanks before it.
#[tactic(auto, unfolding(crate::specs::Tokens::trim_start))]
pub fn trim_start(text: &[u8]) -> &[u8]
    ensures { result.now ≡ spec.trim_start text.now }
{
    &text[blank_length(text)..]
}

/// How many bytes the word at the start of a text has.
fn word_length(text: &[u8]) -> usize
    ensures length { result ≡ prefix_len is_word_byte text.now }
    ensures within { result ≤ length text.now }
{
    text.iter().take_while(|byte| is_word_byte(**byte)).count()
}

/// The word that the text begins with, and the text behind it.
#[tactic(auto, using(crate::proofs::Reading::words))]
pub fn word(text: &[u8]) -> Option<(&[u8], &[u8])>
    ensures { option_map (λ r. (r.0.now, spec.tokens r.1.now)) result ≡ spec.first_word (spec.tokens text.now) }
{
    let text = trim_start(text);
    let length = word_length(text);
    if length == 0 {
        None
    } else {
        Some((&text[..length], &text[length..]))
    }
}

/// The text behind a mark that it begins with.
pub fn behind(mark: u8, text: &[u8]) -> Option<&[u8]>
    requires { IsTrue (is_mark mark) }
    ensures { option_map (λ r. spec.tokens r.now) result ≡ spec.behind mark (spec.tokens text.now) }
{
    let text = trim_start(text);
    if text.is_empty() {
        return None;
    }
    if text[0] == mark {
        Some(&text[1..])
    } else {
        None
    }
}

/// The word behind a mark that the text begins with, and the text behind it.
#[tactic(auto, unfolding(crate::specs::Tokens::word_behind))]
fn word_behind(mark: u8, text: &[u8]) -> Option<(&[u8], &[u8])>
    requires { IsTrue (is_mark mark) }
    ensures { option_map (λ r. (r.0.now, spec.tokens r.1.now)) result ≡ spec.word_behind mark (spec.tokens text.now) }
{
    match behind(mark, text) {
        Some(text) => word(text),
        None => None,
    }
}

/// Nothing, where the text has no token.
pub fn end(text: &[u8]) -> Option<()>
    ensures { result ≡ spec.end (spec.tokens text.now) }
{
    let text = trim_start(text);
    if text.is_empty() { Some(()) } else { None }
}

/// One word, where the text is that.
#[tactic(auto, using(crate::proofs::Operands::operands))]
pub fn one(text: &[u8]) -> Option<&[u8]>
    ensures { option_map (λ r. r.now) result ≡ spec.one_of (spec.tokens text.now) }
{
    let (first, text) = word(text)?;
    end(text)?;
    Some(first)
}

/// Two words with a comma between them, where the text is that.
#[tactic(auto, using(crate::proofs::Operands::operands))]
pub fn two(text: &[u8]) -> Option<(&[u8], &[u8])>
    ensures { option_map (λ r. (r.0.now, r.1.now)) result ≡ spec.two_of (spec.tokens text.now) }
{
    let Some((first, text)) = word(text) else {
        return None
    };
    let Some((second, text)) = word_behind(COMMA, text) else {
        return None
    };
    match end(text) {
        Some(()) => Some((first, second)),
        None => None,
    }
}

/// Three words with commas between them, where the text is that.
#[tactic(auto, using(crate::proofs::Operands::operands))]
pub fn three(text: &[u8]) -> Option<(&[u8], &[u8], &[u8])>
    ensures { option_map (λ r. (r.0.now, r.1.now, r.2.now)) result ≡ spec.three_of (spec.tokens text.now) }
{
    let Some((first, text)) = word(text) else {
        return None
    };
    let Some((second, text)) = word_behind(COMMA, text) else {
        return None
    };
    let Some((third, text)) = word_behind(COMMA, text) else {
        return None
    };
    match end(text) {
        Some(()) => Some((first, second, third)),
        None => None,
    }
}

/// A word, a comma, and an address, which is a word and a base in parentheses, where the text is that.
#[tactic(auto, using(crate::proofs::Operands::operands))]
pub fn address(text: &[u8]) -> Option<(&[u8], &[u8], &[u8])>
    ensures { option_map (λ r. (r.0.now, r.1.now, r.2.now)) result ≡ spec.address_of (spec.tokens text.now) }
{
    let Some((first, text)) = word(text) else {
        return None
    };
    let Some((offset, text)) = word_behind(COMMA, text) else {
        return None
    };
    let Some((base, text)) = word_behind(OPEN, text) else {
        return None
    };
    let Some(text) = behind(CLOSE, text) else {
        return None
    };
    match end(text) {
        Some(()) => Some((first, offset, base)),
        None => None,
    }
}
