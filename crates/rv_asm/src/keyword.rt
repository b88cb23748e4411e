//! What the first word of a statement can be.
ghost use Rattle.std.specs.Prelude.{◌≡◌, IfSome, IsTrue, bytes_eq, find, map};
ghost use Rattle.std.specs.Option.{option_copied};
ghost use Rattle.rv_asm.specs.Keywords as spec;
ghost use Rattle.rv_asm.specs.Sound.{is_known};

use rv_table::{Form, row_named};

/// What the first word of a statement names: an instruction of the word table, by its code, one of the further forms, or
/// a directive.
#[derive(Clone, Copy)]
pub enum Keyword {
    Instruction(u8),
    Nop,
    Move,
    Jump,
    Call,
    JumpRegister,
    Return,
    BranchIfZero,
    BranchIfNotZero,
    LoadImmediate,
    LoadAddress,
    TextPart,
    DataPart,
    Word,
    Byte,
    Space,
}

/// A word and what it names.
#[derive(Clone, Copy)]
pub struct NamedKeyword {
    pub name: &'static str,
    pub keyword: Keyword,
}

/// The further forms and the directives.
static FURTHER: [NamedKeyword; 15] = [
    NamedKeyword {
        name: "nop",
        keyword: Keyword::Nop,
    },
    NamedKeyword {
        name: "mv",
        keyword: Keyword::Move,
    },
    NamedKeyword {
        name: "j",
        keyword: Keyword::Jump,
    },
    NamedKeyword {
        name: "call",
        keyword: Keyword::Call,
    },
    NamedKeyword {
        name: "jr",
        keyword: Keyword::JumpRegister,
    },
    NamedKeyword {
        name: "ret",
        keyword: Keyword::Return,
    },
    NamedKeyword {
        name: "beqz",
        keyword: Keyword::BranchIfZero,
    },
    NamedKeyword {
        name: "bnez",
        keyword: Keyword::BranchIfNotZero,
    },
    NamedKeyword {
        name: "li",
        keyword: Keyword::LoadImmediate,
    },
    NamedKeyword {
        name: "la",
        keyword: Keyword::LoadAddress,
    },
    NamedKeyword {
        name: ".text",
        keyword: Keyword::TextPart,
    },
    NamedKeyword {
        name: ".data",
        keyword: Keyword::DataPart,
    },
    NamedKeyword {
        name: ".word",
        keyword: Keyword::Word,
    },
    NamedKeyword {
        name: ".byte",
        keyword: Keyword::Byte,
    },
    NamedKeyword {
        name: ".space",
        keyword: Keyword::Space,
    },
];

fn further() -> &'static [NamedKeyword]
    ensures { map spec.shown result.now ≡ spec.further }
{
    &FURTHER
}

fn first_named<'a>(keywords: &'a [NamedKeyword], word: &[u8]) -> Option<&'a NamedKeyword>
    ensures { option_copied result ≡ find (λ k. bytes_eq word.now k.name.now) keywords.now }
{
    keywords.iter().find(|named| word == named.name.as_bytes())
}

/// The further form or the directive that a word names.
fn further_named(word: &[u8]) -> Option<Keyword>
    ensures keyword { result ≡ spec.further_named word.now }
    ensures known { IfSome result (λ k. IsTrue (is_known k)) }
{
    match first_named(further(), word) {
        Some(named) => Some(named.keyword),
        None => None,
    }
}

/// The instruction of the word table, but for the counter reads, that a word names.
#[tactic(auto, unfolding(crate::specs::Keywords::instruction_named), using(crate::proofs::KeywordTable::row_known))]
fn instruction_named(word: &[u8]) -> Option<Keyword>
    ensures keyword { result ≡ spec.instruction_named word.now }
    ensures known { IfSome result (λ k. IsTrue (is_known k)) }
{
    let row = row_named(word)?;
    if row.form == Form::Counter {
        None
    } else {
        Some(Keyword::Instruction(row.code))
    }
}

/// What a word names.
#[tactic(auto, unfolding(crate::specs::Keywords::keyword_named))]
pub fn keyword_named(word: &[u8]) -> Option<Keyword>
    ensures keyword { result ≡ spec.keyword_named word.now }
    ensures known { IfSome result (λ k. IsTrue (is_known k)) }
{
    match further_named(word) {
        Some(keyword) => Some(keyword),
        None => instruction_named(word),
    }
}
