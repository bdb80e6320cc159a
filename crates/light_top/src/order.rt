// An order of events as one value.
ghost use Rattle.std.specs.Prelude.{◌≡◌};

use light_base::Event;
use std::marker::Model;

/// An order of events, seen as their list.
#[derive(Drop)]
pub struct Order {
    events: Vec<Event>,
}

impl Model for Order {
    ghost use Rattle.std.specs.Prelude.{List};
    ghost use Rattle.light_base.specs.declared.tag.Event.{Event};

    ghost Value = { List Event };

    ghost view = { λ o. o.events.items };
}

impl Order {
    pub fn of(events: Vec<Event>) -> Order
        ensures { result ≡ events.items }
    {
        Order { events }
    }

    pub fn as_slice(&self) -> &[Event]
        ensures { result.now ≡ self.now }
    {
        &self.events
    }
}
