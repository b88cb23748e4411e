// The branch history: 64 two-bit counters.

ghost use Rattle.std.specs.Prelude.{◌≡◌, ◌%◌, ◌<◌, ◌≤◌, slice_index, slice_set, replicate};
ghost use Rattle.predictor.specs.Tables.{moved};

use bit_field::{BHT_BITS, Struck, bit_at, flip_at_u8};
use std::marker::Model;

/// The number of counters of the branch history.
pub const COUNTERS: usize = 64;

/// The bits of a counter.
pub const COUNTER_WIDTH: u32 = 2;

/// The counters of the branch history. Their bits stand one counter after another.
#[derive(Clone, Copy)]
pub struct History {
    counters: [u8; COUNTERS],
}

impl Model for History {
    ghost use Rattle.std.specs.Prelude.{◌^◌, ◌<◌, ℕ, List};
    ghost use Rattle.std.specs.List.{All};
    ghost use Rattle.predictor.specs.declared.history.TheConstants.{COUNTER_WIDTH};

    ghost Value = { List ℕ };

    ghost view = { λ x. x.counters };

    ghost invariant = { λ x. All (λ counter. counter < 2 ^ COUNTER_WIDTH) x.counters };

    ghost inverse = { λ counters. record { counters = counters } };
}

impl Struck for History {
    ghost use Rattle.predictor.specs.HistoryBits as history_bits;

    ghost IsFit = { history_bits.IsFit };

    ghost bit_count = { λ _. history_bits.bit_count };

    ghost bit_of = { history_bits.bit_of };

    ghost flipped = { history_bits.flipped };

    fn bits(&self) -> u32 {
        BHT_BITS
    }

    fn bit(&self, k: u32) -> bool {
        bit_at(
            u32::from(self.counters[(k / COUNTER_WIDTH) as usize]),
            k % COUNTER_WIDTH,
        )
    }

    fn flip(&mut self, k: u32) {
        flip_at_u8(
            &mut self.counters[(k / COUNTER_WIDTH) as usize],
            COUNTER_WIDTH,
            k % COUNTER_WIDTH,
        );
    }

    fn fits(&self) {
        let _counters = &self.counters;
    }

    fn laws(&self) {}
}

impl History {
    /// Each counter is 1.
    pub fn new() -> History
        ensures { result ≡ replicate COUNTERS 1 }
    {
        History {
            counters: [1; COUNTERS],
        }
    }

    /// The counter of the branch at word address `pc`.
    pub fn counter(&self, pc: u32) -> u8
        ensures value { result ≡ slice_index self.now (pc % COUNTERS) }
        ensures most { result ≤ 3 }
    {
        self.counters[pc as usize % COUNTERS]
    }

    /// Raises the counter of the branch at word address `pc`, at most to 3, or lowers it, at least to 0.
    pub fn learn(&mut self, pc: u32, taken: bool)
        ensures { self.new ≡ slice_set self.old (pc % COUNTERS) (moved taken (slice_index self.old (pc % COUNTERS))) }
    {
        let counter = moved_counter(self.counter(pc), taken);
        self.counters[pc as usize % COUNTERS] = counter;
    }
}

fn moved_counter(counter: u8, taken: bool) -> u8
    requires { counter ≤ 3 }
    ensures value { result ≡ moved taken counter }
    ensures most { result ≤ 3 }
{
    if taken {
        (counter + 1).min(3)
    } else {
        counter.saturating_sub(1)
    }
}
