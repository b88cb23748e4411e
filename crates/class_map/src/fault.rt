// What is wrong with a line of a map.
ghost use Rattle.std.specs.Prelude.{◌≡◌};
ghost use Rattle.class_map.specs.Faults.{fault_number};

/// A fault of a line of a map. Of several the first counts.
#[derive(Clone, Copy)]
pub(crate) enum Fault {
    /// It isn't the line of its place: by its words, by more than 64 bytes, or by a missing line feed.
    Misspelled,
    /// The number of cycles or of instructions isn't the run's.
    OtherRun,
    /// There is no such structure, bit, cycle or rule.
    OutOfRange,
    /// It doesn't come after the line before.
    OutOfOrder,
    /// In some cycle of the line the bit isn't un-ACE by this rule.
    OtherClass,
}

impl Fault {
    /// The fault's number, 1 to 5.
    pub fn number(self) -> u8
        ensures { result ≡ fault_number self }
    {
        match self {
            Fault::Misspelled => 1,
            Fault::OtherRun => 2,
            Fault::OutOfRange => 3,
            Fault::OutOfOrder => 4,
            Fault::OtherClass => 5,
        }
    }
}
