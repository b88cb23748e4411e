//! The bytes of a source.
ghost use Rattle.std.specs.Prelude.{◌≡◌};
ghost use Rattle.rv_asm.specs.Bytes as spec;

/// What ends a line, and what is passed over before it.
pub const LINE_FEED: u8 = 10;

pub const CARRIAGE_RETURN: u8 = 13;

/// What begins a comment.
pub const COMMENT: u8 = b'#';

pub const COMMA: u8 = b',';

/// What stands behind a label.
pub const COLON: u8 = b':';

/// What stands round a base register.
pub const OPEN: u8 = b'(';

pub const CLOSE: u8 = b')';

/// Whether a byte separates words: a space or a tab.
pub fn is_blank(byte: u8) -> bool
    ensures { result ≡ spec.is_blank byte }
{
    byte == b' ' || byte == b'\t'
}

/// Whether a byte is a token of its own.
pub fn is_mark(byte: u8) -> bool
    ensures { result ≡ spec.is_mark byte }
{
    byte == COMMA || byte == COLON || byte == OPEN || byte == CLOSE
}

/// Whether a byte is part of a word.
pub fn is_word_byte(byte: u8) -> bool
    ensures { result ≡ spec.is_word_byte byte }
{
    !is_blank(byte) && !is_mark(byte)
}

/// Whether a byte may stand in a line: those that can be printed, space and tab.
pub fn is_allowed(byte: u8) -> bool
    ensures { result ≡ spec.is_allowed byte }
{
    0x20 <= byte && byte <= 0x7E || byte == b'\t'
}
