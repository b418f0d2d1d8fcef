// What has an event: the event itself, or one with what is noted beside it.

ghost use Rattle.std.specs.Prelude.{◌≡◌};
ghost use Rattle.settlement.specs.declared.events.Event.{Event};

use crate::events::Event;

// Settling reads the event alone, whatever stands beside it.
pub trait Called {
    ghost event: { Self → Event };

    fn event(&self) -> Event
        ensures { result ≡ event self.now };
}

impl Called for Event {
    ghost event = { λ event. event };

    fn event(&self) -> Event {
        *self
    }
}
