// How a map is spelled. A line is made in a buffer on the stack.
ghost use Rattle.std.specs.Prelude.{◌≡◌, ◌≤◌, ◌<◌, ◌^◌, ◌+◌, ◌++◌, ◌∷◌, [], codes, decimal, length};
ghost use Rattle.class_map.specs.Texts as texts;

use crate::map_line::MapLine;
use arrayvec::ArrayString;
use bit_field::structure_name;
use itoa::Buffer;

// Room for the first three lines, or for one of the others.
const ROOM: usize = 128;

/// A text on the stack.
pub(crate) type Text = ArrayString<ROOM>;

// Adds a number in decimal digits.
fn push_number(text: &mut Text, number: u32)
    requires { length text.old.bytes ≤ 100 }
    ensures bytes { text.new.bytes ≡ text.old.bytes ++ decimal number }
    ensures length { length text.new.bytes ≤ length text.old.bytes + 10 }
{
    text.push_str(Buffer::new().format(number));
}

// Adds a number in decimal digits, and a blank.
fn push_word(text: &mut Text, number: u32)
    requires { length text.old.bytes ≤ 100 }
    ensures bytes { text.new.bytes ≡ text.old.bytes ++ (decimal number ++ texts.blank ∷ []) }
    ensures length { length text.new.bytes ≤ length text.old.bytes + 11 }
{
    push_number(text, number);
    text.push_str(" ");
}

/// A line of a map, with its line feed.
#[tactic(auto, unfolding(crate::specs::Texts::spelled))]
pub(crate) fn line_text(line: &MapLine) -> Text
    ensures { result.bytes ≡ texts.ended (texts.spelled line.now) }
{
    let mut text = Text::new();
    text.push_str(structure_name(line.place.structure));
    text.push_str(" ");
    push_word(&mut text, line.place.bit);
    push_word(&mut text, line.from);
    push_word(&mut text, line.to);
    text.push_str("U");
    push_number(&mut text, u32::from(line.rule));
    text.push_str("\n");
    text
}

/// The first three lines of the map of a run of so many cycles and instructions, with their line feeds.
pub(crate) fn head_text(cycles: u32, instructions: u32) -> Text
    ensures { result.bytes ≡ texts.head_text cycles instructions }
{
    let mut text = Text::new();
    text.push_str("avf-map 1\n");
    text.push_str("cycles ");
    push_number(&mut text, cycles);
    text.push_str("\n");
    text.push_str("instructions ");
    push_number(&mut text, instructions);
    text.push_str("\n");
    text
}
