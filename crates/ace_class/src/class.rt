// The classes of bits.

/// A rule by which a bit is un-ACE in a cycle: a flip of it there changes neither the output nor the end of the run. The
/// report calls the rules U1 to U13, in this order; the first that holds gives the bit's class.
#[derive(Clone, Copy, Debug, PartialEq, Eq)]
pub enum Rule {
    /// U1: bits that only predict, or that only say how long something takes.
    Timing,
    /// U2: fields of a place that holds nothing.
    EmptyPlace,
    /// U3: entries of a wrong path, which never execute.
    WrongPath,
    /// U4: the valid and pc bits of entries of the right path, which are fetched again, and of idle places.
    OnPath,
    /// U5: bits in the pipeline whose flip gives an outcome that agrees with the one without it.
    Masked,
    /// U6: bits of a register that are written, or no longer needed, before they are read.
    DeadRegister,
    /// U7: data in a dirty line or in the store buffer that are overwritten, or no longer needed.
    DeadData,
    /// U8: mask and address bits of a pending store, where neither the bytes that it leaves nor those that it hits matter.
    StoreRedirection,
    /// U9: data of a clean line, by the next event there: the byte is written, or the line is read anew from memory.
    CleanData,
    /// U10: the valid and dirty bits of a clean line, which memory holds too.
    CleanLine,
    /// U11: the tag, valid and dirty bits of lines that are not accessed again.
    UnaccessedLine,
    /// U12: tag bits of a clean line that no look-up can confuse before the slot is filled anew.
    CleanTag,
    /// U13: the trap number of an instruction that doesn't trap.
    NoTrapCause,
}

/// The number of rules and of ACE together, so of the classes.
pub const CLASSES: usize = 14;

/// The rules, from U1 to U13.
pub const RULES: [Rule; 13] = [
    Rule::Timing,
    Rule::EmptyPlace,
    Rule::WrongPath,
    Rule::OnPath,
    Rule::Masked,
    Rule::DeadRegister,
    Rule::DeadData,
    Rule::StoreRedirection,
    Rule::CleanData,
    Rule::CleanLine,
    Rule::UnaccessedLine,
    Rule::CleanTag,
    Rule::NoTrapCause,
];

impl Rule {
    ghost use Rattle.std.specs.Prelude.{◌≡◌};
    ghost use Rattle.ace_class.specs.Classes.{number_of};

    /// The rule's number in a report, 1 to 13.
    pub fn number(&self) -> u8
        ensures { result ≡ number_of self.now }
    {
        match self {
            Rule::Timing => 1,
            Rule::EmptyPlace => 2,
            Rule::WrongPath => 3,
            Rule::OnPath => 4,
            Rule::Masked => 5,
            Rule::DeadRegister => 6,
            Rule::DeadData => 7,
            Rule::StoreRedirection => 8,
            Rule::CleanData => 9,
            Rule::CleanLine => 10,
            Rule::UnaccessedLine => 11,
            Rule::CleanTag => 12,
            Rule::NoTrapCause => 13,
        }
    }
}

/// What a flip of a stored bit in a cycle can do to the run. A bit is called ACE where no rule holds; that says nothing
/// of what its flip does.
#[derive(Clone, Copy, Debug, PartialEq, Eq)]
pub enum Class {
    /// No rule holds.
    Ace,
    /// The first rule that holds; the flip changes neither output nor end.
    UnAce(Rule),
}

impl Class {
    ghost use Rattle.std.specs.Prelude.{◌≡◌};
    ghost use Rattle.ace_class.specs.Classes.{class_number};

    /// The class's number, 0 for ACE and else that of the rule, 1 to 13.
    pub fn number(&self) -> u8
        ensures { result ≡ class_number self.now }
    {
        match self {
            Class::Ace => 0,
            Class::UnAce(rule) => rule.number(),
        }
    }
}
