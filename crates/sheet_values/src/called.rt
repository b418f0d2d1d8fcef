// An event with its line can be settled as it stands.

use crate::noted::Noted;
use settlement::{Called, Event};

impl Called for Noted<Event> {
    ghost event = { λ noted. noted.value };

    fn event(&self) -> Event {
        self.value
    }
}
