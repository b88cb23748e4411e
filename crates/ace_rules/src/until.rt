// How long a bit keeps its class.
use crate::analysis::Analysis;
use crate::stays::stays_until;
use bit_field::Place;

impl Analysis<'_> {
    ghost use Rattle.std.specs.Prelude.{◌<◌, ◌≤◌};
    ghost use Rattle.bit_field.specs.Shapes.{IsPlaceIn};
    ghost use Rattle.ace_rules.specs.Analyses.{HasOneClass};
    ghost use Rattle.ace_rules.specs.Stays.{HasAnotherClass, Stays};

    /// A cycle above `cycle`, at most the number of cycles of the run, up to before which the class of the bit at a place surely
    /// stays. It takes no memory.
    pub fn idle_until(&self, place: &Place, cycle: u32) -> u32
        requires place { IsPlaceIn self.now.r.shape place.now }
        requires cycle { cycle < self.now.r.cycles }
        ensures after { cycle < result }
        ensures within { result ≤ self.now.r.cycles }
        ensures stays { Stays self.now place.now cycle result }
    {
        let cycles = self.recorded.cycles();
        let until = stays_until(
            &self.recorded,
            &self.needs,
            &self.notes,
            self.quiet,
            &self.life,
            &self.tags,
            &self.slots,
            place,
            cycle,
        );
        until.max(cycle + 1).min(cycles)
    }

    /// A cycle above `cycle`, at most the number of cycles of the run, up to before which the bit at the place has the class that it has in
    /// `cycle`: the first in which it has another, or the number of cycles where there is none. It takes no memory.
    pub fn same_until(&self, place: &Place, cycle: u32) -> u32
        requires place { IsPlaceIn self.now.r.shape place.now }
        requires cycle { cycle < self.now.r.cycles }
        ensures after { cycle < result }
        ensures within { result ≤ self.now.r.cycles }
        ensures same { HasOneClass self.now place.now cycle result }
        ensures longest { result < self.now.r.cycles → HasAnotherClass self.now place.now cycle result }
    {
        let class = self.class_of(place, cycle);
        let cycles = self.recorded.cycles();
        let mut until = self.idle_until(place, cycle);
        while until < cycles {
            if self.class_of(place, until).number() != class.number() {
                return until;
            }
            until = self.idle_until(place, until);
        }
        until
    }
}
