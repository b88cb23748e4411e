//! Lines: what a line of a source says, and the lines of a source.
ghost use Rattle.std.specs.Prelude.{◌≡◌, ◌<◌, ◌≤◌, ◌∷◌, ◌==◌, Bool, IfOk, None, true, not, length, option_map};
ghost use Rattle.std.specs.List.{list_all, position_or_len, prefix_len, take_while};
ghost use Rattle.rv_asm.specs.Bytes.{is_allowed};
ghost use Rattle.rv_asm.specs.Lines as spec;
ghost use Rattle.rv_asm.specs.Shown.{shown, shown_lines, shown_result};
ghost use Rattle.rv_asm.specs.Sound.{IsSound};
ghost use Rattle.rv_asm.specs.Tokens.{before_colon, first_word, tokens};

use crate::bytes::{CARRIAGE_RETURN, COLON, COMMENT, LINE_FEED, is_allowed};
use crate::fault::Fault;
use crate::keyword::keyword_named;
use crate::names::label;
use crate::statement::{Statement, statement_by};
use crate::tokens::{behind, end, word};

/// What a line says: the label that it defines, and its statement.
#[derive(Clone, Copy)]
pub struct Line<'s> {
    pub name: Option<&'s [u8]>,
    pub statement: Statement<'s>,
}

/// Whether a statement may stand in the data part, or else in the text part.
fn stands_in(in_data: bool, statement: &Statement) -> bool
    ensures { result ≡ spec.stands_in in_data (shown statement.now) }
{
    match statement {
        Statement::Blank | Statement::Part(_) => true,
        Statement::DataWord(_) | Statement::DataByte(_) | Statement::DataSpace(_) => in_data,
        Statement::Ready(_)
        | Statement::WithNumber(_, _)
        | Statement::WithLabel(_, _)
        | Statement::NumberInto(_, _)
        | Statement::AddressInto(_, _) => !in_data,
    }
}

/// A statement where it may stand.
#[tactic(auto, unfolding(crate::specs::Lines::placed))]
fn placed(in_data: bool, statement: Statement<'_>) -> Result<Statement<'_>, Fault>
    requires { IsSound (shown statement) }
    ensures statement { shown_result result ≡ spec.placed in_data (shown statement.entry) }
    ensures sound { IfOk result (λ s. IsSound (shown s)) }
    ensures stands { IfOk result (λ s. spec.stands_in in_data (shown s) ≡ true) }
{
    if stands_in(in_data, &statement) {
        Ok(statement)
    } else {
        Err(Fault::BadForm)
    }
}

/// The statement of a first word and the text behind it.
#[tactic(auto, unfolding(crate::specs::Lines::spoken))]
fn spoken<'s>(in_data: bool, first: &[u8], text: &'s [u8]) -> Result<Statement<'s>, Fault>
    ensures statement { shown_result result ≡ spec.spoken in_data first.now (tokens text.now) }
    ensures sound { IfOk result (λ s. IsSound (shown s)) }
    ensures stands { IfOk result (λ s. spec.stands_in in_data (shown s) ≡ true) }
{
    let Some(keyword) = keyword_named(first) else {
        return Err(Fault::UnknownWord)
    };
    match statement_by(keyword, text) {
        Some(statement) => placed(in_data, statement),
        None => Err(Fault::BadForm),
    }
}

/// Nothing, or a fault where there is a token.
#[tactic(auto, using(crate::proofs::LineForms::nothing))]
fn nothing<'s>(text: &[u8]) -> Result<Statement<'s>, Fault>
    ensures statement { first_word (tokens text.now) ≡ None → (in_data : Bool) → shown_result result ≡ spec.statement_of in_data (tokens text.now) }
    ensures sound { IfOk result (λ s. IsSound (shown s)) }
    ensures stands { IfOk result (λ s. (in_data : Bool) → spec.stands_in in_data (shown s) ≡ true) }
{
    match end(text) {
        Some(()) => Ok(Statement::Blank),
        None => Err(Fault::UnknownWord),
    }
}

/// The statement of a text: it begins with a word, or there is none.
#[tactic(auto, using(crate::proofs::LineForms::begun))]
fn statement_of<'s>(in_data: bool, text: &'s [u8]) -> Result<Statement<'s>, Fault>
    ensures statement { shown_result result ≡ spec.statement_of in_data (tokens text.now) }
    ensures sound { IfOk result (λ s. IsSound (shown s)) }
    ensures stands { IfOk result (λ s. spec.stands_in in_data (shown s) ≡ true) }
{
    match word(text) {
        Some((first, rest)) => spoken(in_data, first, rest),
        None => nothing(text),
    }
}

/// The word before the colon that a text begins with, and the text behind that.
#[tactic(auto, using(crate::proofs::LineForms::colons))]
fn before_colon(text: &[u8]) -> Option<(&[u8], &[u8])>
    ensures { option_map (λ r. (r.0.now, tokens r.1.now)) result ≡ before_colon (tokens text.now) }
{
    let Some((name, rest)) = word(text) else {
        return None
    };
    match behind(COLON, rest) {
        Some(rest) => Some((name, rest)),
        None => None,
    }
}

#[tactic(auto, unfolding(crate::specs::Lines::without_label))]
fn without_label<'s>(in_data: bool, text: &'s [u8]) -> Result<Line<'s>, Fault>
    ensures line { shown_lines result ≡ spec.without_label in_data (tokens text.now) }
    ensures sound { IfOk result (λ l. IsSound (shown l.statement)) }
    ensures stands { IfOk result (λ l. spec.stands_in in_data (shown l.statement) ≡ true) }
{
    let statement = statement_of(in_data, text)?;
    Ok(Line {
        name: None,
        statement,
    })
}

#[tactic(auto, unfolding(crate::specs::Lines::with_label))]
fn with_label<'s>(in_data: bool, name: &'s [u8], text: &'s [u8]) -> Result<Line<'s>, Fault>
    ensures line { shown_lines result ≡ spec.with_label in_data name.now (tokens text.now) }
    ensures sound { IfOk result (λ l. IsSound (shown l.statement)) }
    ensures stands { IfOk result (λ l. spec.stands_in in_data (shown l.statement) ≡ true) }
{
    let Some(name) = label(name) else {
        return Err(Fault::UnknownWord)
    };
    match statement_of(in_data, text) {
        Ok(statement) => Ok(Line {
            name: Some(name),
            statement,
        }),
        Err(fault) => Err(fault),
    }
}

/// A label with a colon, if there is one, and a statement, if there is one.
#[tactic(auto, using(crate::proofs::LineForms::labels))]
fn labelled<'s>(in_data: bool, text: &'s [u8]) -> Result<Line<'s>, Fault>
    ensures line { shown_lines result ≡ spec.labelled in_data (tokens text.now) }
    ensures sound { IfOk result (λ l. IsSound (shown l.statement)) }
    ensures stands { IfOk result (λ l. spec.stands_in in_data (shown l.statement) ≡ true) }
{
    match before_colon(text) {
        Some((name, rest)) => with_label(in_data, name, rest),
        None => without_label(in_data, text),
    }
}

/// A line without its comment.
fn before_comment(line: &[u8]) -> &[u8]
    ensures { result.now ≡ take_while (λ b. not (b == COMMENT)) line.now }
{
    &line[..length_before_comment(line)]
}

fn length_before_comment(line: &[u8]) -> usize
    ensures length { result ≡ prefix_len (λ b. not (b == COMMENT)) line.now }
    ensures within { result ≤ length line.now }
{
    line.iter().take_while(|byte| **byte != COMMENT).count()
}

fn are_allowed(line: &[u8]) -> bool
    ensures { result ≡ list_all is_allowed line.now }
{
    line.iter().all(|byte| is_allowed(*byte))
}

/// What a line says in the data part, or else in the text part.
#[tactic(auto, unfolding(crate::specs::Lines::line_of))]
pub fn line_of<'s>(in_data: bool, line: &'s [u8]) -> Result<Line<'s>, Fault>
    ensures line { shown_lines result ≡ spec.line_of in_data line.now }
    ensures sound { IfOk result (λ l. IsSound (shown l.statement)) }
    ensures stands { IfOk result (λ l. spec.stands_in in_data (shown l.statement) ≡ true) }
{
    if are_allowed(line) {
        labelled(in_data, before_comment(line))
    } else {
        Err(Fault::BadByte)
    }
}

/// A line without the carriage return at its end.
#[tactic(auto, unfolding(crate::specs::Lines::without_return))]
fn without_return(line: &[u8]) -> &[u8]
    ensures line { result.now ≡ spec.without_return line.now }
    ensures within { length result.now ≤ length line.now }
{
    if !line.is_empty() && line[line.len() - 1] == CARRIAGE_RETURN {
        &line[..line.len() - 1]
    } else {
        line
    }
}

/// How many bytes stand before the first line feed, or all where there is none.
fn line_length(text: &[u8]) -> usize
    ensures length { result ≡ position_or_len (λ b. b == LINE_FEED) text.now }
    ensures within { result ≤ length text.now }
{
    text.iter().take_while(|byte| **byte != LINE_FEED).count()
}

/// The first line of a text and the text behind it.
pub fn next_line(text: &[u8]) -> (&[u8], &[u8])
    requires { 0 < length text.now }
    ensures lines { spec.lines text.now ≡ result.0.now ∷ spec.lines result.1.now }
    ensures shorter { length result.1.now < length text.now }
{
    let end = line_length(text);
    if end < text.len() {
        (without_return(&text[..end]), &text[end + 1..])
    } else {
        (text, &text[end..])
    }
}
