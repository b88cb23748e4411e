//! What can be wrong with a source.

/// What can be wrong with a line of a source, or with the whole, in the order of their numbers, 1 to 7.
#[derive(Clone, Copy)]
pub enum Fault {
    /// A byte isn't allowed.
    BadByte,
    /// The first word of the statement is no mnemonic and no directive, or the label before the colon isn't spelled as one.
    UnknownWord,
    /// The operands don't have the statement's form, or the statement stands in the wrong part.
    BadForm,
    /// A number or an offset is out of its range; or `_start` is no address of an instruction.
    OutOfRange,
    /// The label was defined on an earlier line.
    DefinedTwice,
    /// A label that is used is defined on no line.
    Undefined,
    /// The source is above 1 MiB, its text part is empty, or a part is too large.
    BadSize,
}
