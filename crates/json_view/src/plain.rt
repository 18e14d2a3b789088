// JSON with comments and trailing commas.
ghost use Rattle.std.specs.Prelude.{◌≡◌, ◌==◌, ◌||◌, IfOk, slice_index, IsOkUnless};
ghost use Rattle.json_view.specs.Plain.{after, part_of, begins_block, is_between, is_closer, is_comma, kept_or_blank, AnswersPlain, KeepsPlaces};
ghost use Rattle.json_view.specs.Waiting.{IsWithin, settled, Adds};

use crate::JsonErr;
use crate::bytes::{
    ASTERISK, BACKSLASH, CARRIAGE_RETURN, CLOSING_BRACE, CLOSING_BRACKET, COMMA, LINE_FEED,
    NO_BYTE, QUOTE, SLASH, SPACE, TAB,
};
use rel_path::Bytes;
use std::alloc::Global;

// Where a byte stands.
#[derive(Clone, Copy)]
enum Place {
    // Outside of strings and comments.
    Outside,
    InString,
    // Behind a backslash in a string.
    Escaped,
    // In a line comment, the newline at its end included.
    InLine,
    // At the `*` that opens a block comment.
    Opening,
    InBlock,
    // At the `/` that ends a block comment.
    Closing,
}

// What a byte belongs to.
#[derive(Clone, Copy)]
enum Part {
    Comment,
    Text,
    Plain,
}

/// JSON with comments (`//` to the end of the line, `/* */`) and with trailing commas, as JSON.
///
/// Outside strings each byte of a comment becomes a blank, newlines excepted, and so does a comma
/// with nothing but comments and white space between it and a `}` or `]`. All else stays, and each
/// byte keeps its place: `[1,/*x*/]` becomes `[1`, six blanks and `]`. `[,]` becomes an empty array.
/// The bytes need not be JSON.
pub fn plain_json(alloc: Global, bytes: &[u8]) -> Result<Bytes, JsonErr>
    ensures answer { AnswersPlain bytes.now result }
    ensures places { IfOk result (KeepsPlaces bytes.now) }
{
    let mut text = Vec::with_capacity(alloc, bytes.len())?;
    let mut place = Place::Outside;
    let mut waiting = None;
    let mut opened = 0;
    for (i, byte) in bytes.iter().enumerate() {
        let next = byte_at(bytes, i + 1);
        if begins_block(place, *byte, next) {
            opened = i;
        }
        waiting = add(&mut text, waiting, *byte, part_of(place, *byte, next))?;
        place = after(place, *byte, next);
    }
    match place {
        Place::Opening | Place::InBlock => Err(JsonErr::OpenComment { at: opened as u64 }),
        _ => Ok(Bytes::from_vec(text)),
    }
}

// The byte of that number, or none behind the end.
fn byte_at(bytes: &[u8], i: usize) -> u8
    ensures { result ≡ slice_index bytes.now i }
{
    match bytes.get(i) {
        Some(byte) => *byte,
        None => NO_BYTE,
    }
}

#[tactic(auto, unfolding(crate::specs::Plain::after))]
fn after(place: Place, byte: u8, next: u8) -> Place
    ensures { result ≡ after place byte next }
{
    match place {
        Place::Outside => match (byte, next) {
            (SLASH, SLASH) => Place::InLine,
            (SLASH, ASTERISK) => Place::Opening,
            (QUOTE, _) => Place::InString,
            _ => Place::Outside,
        },
        Place::InString => match byte {
            QUOTE => Place::Outside,
            BACKSLASH => Place::Escaped,
            _ => Place::InString,
        },
        Place::Escaped => Place::InString,
        Place::InLine if byte == LINE_FEED => Place::Outside,
        Place::InLine => Place::InLine,
        Place::Opening => Place::InBlock,
        Place::InBlock if byte == ASTERISK && next == SLASH => Place::Closing,
        Place::InBlock => Place::InBlock,
        Place::Closing => Place::Outside,
    }
}

#[tactic(auto, unfolding(crate::specs::Plain::part_of))]
fn part_of(place: Place, byte: u8, next: u8) -> Part
    ensures { result ≡ part_of place byte next }
{
    match place {
        Place::Outside if byte == SLASH && (next == SLASH || next == ASTERISK) => Part::Comment,
        Place::Outside => Part::Plain,
        Place::InString | Place::Escaped => Part::Text,
        Place::InLine | Place::Opening | Place::InBlock | Place::Closing => Part::Comment,
    }
}

// Whether a block comment begins with the byte.
fn begins_block(place: Place, byte: u8, next: u8) -> bool
    ensures { result ≡ begins_block place byte next }
{
    match place {
        Place::Outside => byte == SLASH && next == ASTERISK,
        _ => false,
    }
}

// Adds a byte to the text. `waiting` is the place of a comma behind which came only comments and
// white space; so is what is answered.
fn add(
    text: &mut Vec<u8>,
    waiting: Option<usize>,
    byte: u8,
    part: Part,
) -> Result<Option<usize>, JsonErr>
    requires { IsWithin waiting text.old.items }
    ensures added { IfOk result
        (λ now. Adds (byte, part) waiting text.old.items now text.new.items) }
    ensures memory { IsOkUnless result JsonErr.OutOfMemory }
{
    if is_between(byte, part) {
        text.push(kept_or_blank(byte, part))?;
        return Ok(waiting);
    }
    settle(text, waiting, is_closer(byte, part));
    let place = text.len();
    text.push(byte)?;
    Ok(if is_comma(byte, part) {
        Some(place)
    } else {
        None
    })
}

// A closing bracket turns the comma that waits into a blank.
fn settle(text: &mut Vec<u8>, waiting: Option<usize>, closes: bool)
    requires { IsWithin waiting text.old.items }
    ensures { text.new.items ≡ settled closes waiting text.old.items }
{
    if closes {
        if let Some(at) = waiting {
            text[at] = SPACE;
        }
    }
}

// A byte of a comment but a newline is shown as a blank.
fn kept_or_blank(byte: u8, part: Part) -> u8
    ensures { result ≡ kept_or_blank (byte, part) }
{
    match part {
        Part::Comment if byte != LINE_FEED => SPACE,
        _ => byte,
    }
}

fn is_between(byte: u8, part: Part) -> bool
    ensures { result ≡ is_between (byte, part) }
{
    match part {
        Part::Comment => true,
        Part::Text => false,
        Part::Plain => matches!(byte, SPACE | TAB | LINE_FEED | CARRIAGE_RETURN),
    }
}

fn is_closer(byte: u8, part: Part) -> bool
    ensures { result ≡ is_closer (byte, part) }
{
    match part {
        Part::Plain => byte == CLOSING_BRACKET || byte == CLOSING_BRACE,
        _ => false,
    }
}

fn is_comma(byte: u8, part: Part) -> bool
    ensures { result ≡ is_comma (byte, part) }
{
    match part {
        Part::Plain => byte == COMMA,
        _ => false,
    }
}
