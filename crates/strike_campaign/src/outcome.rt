// What became of strikes, and how many there were of each kind.
ghost use Rattle.std.specs.Prelude.{◌≡◌, ◌+◌, ◌<◌, ◌^◌, true, false, []};
ghost use Rattle.strike_campaign.specs.Cells.{all_in, cells_of, is_un_ace, with_outcome};

use crate::strikes::Strike;
use ace_class::Class;
use run_record::Verdict;

/// A strike, the class of its bit in its cycle, and the verdict on the run with that bit flipped before that cycle.
#[derive(Clone, Copy)]
pub struct Outcome {
    pub strike: Strike,
    pub class: Class,
    pub verdict: Verdict,
}

/// How many strikes there were of each kind, by the class of the bit in that cycle and by the verdict on the run.
#[derive(Clone, Copy)]
pub struct Cells {
    /// On bits that are un-ACE: output and end are the recorded ones.
    pub unace_same: u32,
    /// On bits that are un-ACE: output or end differs. This is 0 in every campaign.
    pub unace_differs: u32,
    /// On bits that are un-ACE: no end comes within the bound. This is 0 in every campaign.
    pub unace_noend: u32,
    /// On bits that no rule calls un-ACE: output and end are the recorded ones.
    pub ace_same: u32,
    /// On bits that no rule calls un-ACE: output or end differs.
    pub ace_differs: u32,
    /// On bits that no rule calls un-ACE: no end comes within the bound.
    pub ace_noend: u32,
}

impl Cells {
    /// No strikes.
    pub(crate) fn none() -> Cells
        ensures { result ≡ cells_of [] }
    {
        Cells {
            unace_same: 0,
            unace_differs: 0,
            unace_noend: 0,
            ace_same: 0,
            ace_differs: 0,
            ace_noend: 0,
        }
    }

    fn add_unace(&mut self, verdict: Verdict)
        requires { all_in self.old < 2 ^ 31 }
        ensures { self.new ≡ with_outcome true verdict self.old }
    {
        match verdict {
            Verdict::Same(_) => self.unace_same += 1,
            Verdict::Differs(_) => self.unace_differs += 1,
            Verdict::NoEnd(_) => self.unace_noend += 1,
        }
    }

    fn add_ace(&mut self, verdict: Verdict)
        requires { all_in self.old < 2 ^ 31 }
        ensures { self.new ≡ with_outcome false verdict self.old }
    {
        match verdict {
            Verdict::Same(_) => self.ace_same += 1,
            Verdict::Differs(_) => self.ace_differs += 1,
            Verdict::NoEnd(_) => self.ace_noend += 1,
        }
    }

    /// One more.
    pub(crate) fn add(&mut self, outcome: &Outcome)
        requires { all_in self.old < 2 ^ 31 }
        ensures { self.new ≡ with_outcome (is_un_ace outcome.now.class) outcome.now.verdict self.old }
    {
        match outcome.class {
            Class::UnAce(_) => self.add_unace(outcome.verdict),
            Class::Ace => self.add_ace(outcome.verdict),
        }
    }
}
