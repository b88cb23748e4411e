//! Registers and labels.
ghost use Rattle.std.specs.Prelude.{◌≡◌, ◌<◌, IfSome, map, option_map};
ghost use Rattle.std.specs.List.{list_all};
ghost use Rattle.rv_asm.specs.Names as spec;

use rv_table::register_name;

/// What names the registers also have, by number.
static NUMBERED: [&str; 32] = [
    "x0", "x1", "x2", "x3", "x4", "x5", "x6", "x7", "x8", "x9", "x10", "x11", "x12", "x13", "x14",
    "x15", "x16", "x17", "x18", "x19", "x20", "x21", "x22", "x23", "x24", "x25", "x26", "x27",
    "x28", "x29", "x30", "x31",
];

/// Whether a byte may begin a label.
fn begins_label(byte: u8) -> bool
    ensures { result ≡ spec.begins_label byte }
{
    byte.is_ascii_alphabetic() || byte == b'_' || byte == b'.'
}

/// Whether a byte may stand in a label.
fn is_label_byte(byte: u8) -> bool
    ensures { result ≡ spec.is_label_byte byte }
{
    begins_label(byte) || byte.is_ascii_digit()
}

fn are_label_bytes(word: &[u8]) -> bool
    ensures { result ≡ list_all spec.is_label_byte word.now }
{
    word.iter().all(|byte| is_label_byte(*byte))
}

/// Whether a word is a letter, `_` or `.`, and then such bytes and digits.
pub fn is_label(word: &[u8]) -> bool
    ensures { result ≡ spec.is_label word.now }
{
    !word.is_empty() && begins_label(word[0]) && are_label_bytes(word)
}

/// The label that a word spells: the word itself.
#[tactic(auto, unfolding(crate::specs::Names::label))]
pub fn label(word: &[u8]) -> Option<&[u8]>
    ensures { option_map (λ r. r.now) result ≡ spec.label word.now }
{
    if is_label(word) { Some(word) } else { None }
}

fn numbered_names() -> &'static [&'static str]
    ensures { map (λ name. name.now) result.now ≡ spec.numbered_names }
{
    &NUMBERED
}

/// Whether a word names a register, below 32.
#[tactic(auto, using(crate::proofs::Registers::naming))]
fn names_register(word: &[u8], register: u8) -> bool
    requires { register < 32 }
    ensures { result ≡ spec.names_register word.now register }
{
    word == register_name(register).as_bytes()
        || word == numbered_names()[register as usize].as_bytes()
}

/// The number of the register that a word names.
#[tactic(auto, unfolding(crate::specs::Names::register), using(crate::proofs::Registers::registers))]
pub fn register(word: &[u8]) -> Option<u8>
    ensures named { result ≡ spec.register word.now }
    ensures below { IfSome result (λ r. r < 32) }
{
    if word == b"fp".as_slice() {
        return Some(8);
    }
    for register in 0..32 {
        if names_register(word, register) {
            return Some(register);
        }
    }
    None
}
