// What reads a value before it is overwritten.
ghost use Rattle.dead_class.specs.Readers as spec;
ghost use Rattle.std.specs.Prelude.{◌≡◌};

use crate::class::DeadClass;

/// What reads a value, in a register or a byte, before it is overwritten or the run ends.
#[derive(Clone, Copy)]
pub enum Readers {
    Nobody,
    /// Dead instructions alone.
    DeadOnly,
    /// Also one that is needed.
    SomeNeeded,
}

impl Readers {
    /// An instruction of this class.
    pub fn one(class: DeadClass) -> Readers
        ensures { result ≡ spec.reader class }
    {
        match class {
            DeadClass::Needed => Readers::SomeNeeded,
            _ => Readers::DeadOnly,
        }
    }

    /// These and others.
    pub fn with(self, others: Readers) -> Readers
        ensures { result ≡ spec.both self others }
    {
        match self {
            Readers::Nobody => others,
            Readers::DeadOnly => match others {
                Readers::SomeNeeded => Readers::SomeNeeded,
                Readers::Nobody | Readers::DeadOnly => Readers::DeadOnly,
            },
            Readers::SomeNeeded => Readers::SomeNeeded,
        }
    }

    /// The class of a value with these readers: `unread` where it has none, and `dead` where all are dead.
    pub fn class(self, unread: DeadClass, dead: DeadClass) -> DeadClass
        ensures { result ≡ spec.class_by unread dead self }
    {
        match self {
            Readers::Nobody => unread,
            Readers::DeadOnly => dead,
            Readers::SomeNeeded => DeadClass::Needed,
        }
    }
}
