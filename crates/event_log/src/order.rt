// Whether events are a log.
ghost use Rattle.std.specs.Prelude.{IsTrue, ◌↔◌};
ghost use Rattle.event_log.specs.Events.{IsEventLog};

use bit_field::Shape;
use wb_cache::CacheEvent;

/// Whether these are the events of a run with a cache of this shape: in rising order of cycles, each in a set and a way of the cache.
pub fn is_event_log(events: &[CacheEvent], shape: &Shape) -> bool
    ensures { IsTrue result ↔ IsEventLog shape.now events.now }
{
    let mut least = 0u64;
    for event in events {
        if u64::from(event.cycle) < least {
            return false;
        }
        if event.set >= u32::from(shape.sets) || event.way >= u32::from(shape.ways) {
            return false;
        }
        least = u64::from(event.cycle) + 1;
    }
    true
}
