// Reads a session by a reading place that moves over its lent bytes.
#![tactic(auto)]

ghost use Rattle.std.specs.Prelude.{◌≡◌, ◌+◌, ◌<◌, ◌≤◌, length};
ghost use Rattle.std.specs.Iterator.{YieldsFirst, item_count};
ghost use Rattle.session.specs.Reading as rule;
ghost use Rattle.reading_place.specs.Place as place;

use session::{Bad, Event};

// Lent bytes and a reading place.
#[derive(Clone, Copy, Debug)]
pub struct Session<'a> {
    pub src: &'a [u8],
    pub at: usize,
}

impl<'a> Session<'a> {
    ghost use Rattle.reading_place.specs.Items.{items, rest_of};

    // The reading place at the first byte.
    pub fn new(src: &'a [u8]) -> Self
        ensures { (result.src ≡ src.entry) × (result.at ≡ place.first) }
    {
        Session { src, at: 0 }
    }

    // The header at the reading place, which moves behind it: the count. At a fault the place stays.
    pub fn header(&mut self) -> Result<u16, Bad>
        ensures { place.Moves result self.old self.new (rule.header_at rule.most_events self.old.src.now self.old.at) }
    {
        let (count, next) = session::header_at(self.src, self.at)?;
        self.at = next;
        Ok(count)
    }

    // The event at the reading place, which moves behind it. At a fault the place stays.
    pub fn event(&mut self) -> Result<Event, Bad>
        ensures { place.Moves result self.old self.new (place.here self.old) }
    {
        let (event, behind) = session::event_at(self.src, self.at)?;
        self.at = behind;
        Ok(event)
    }

    // The events that are due from the reading place on, and the fault that ends them.
    #[tactic(auto, using(crate::proofs::Yields::few_items))]
    pub fn events(self, due: u16) -> Events<'a>
        ensures items { rest_of result ≡ items (rule.events_at due self.entry.src.now self.entry.at) }
        ensures few { length (rest_of result) ≤ due + 1 }
    {
        Events {
            session: self,
            due,
            over: false,
        }
    }
}

// The events of a session, and the fault that ends them: of an event, or of bytes left over.
#[derive(Drop)]
pub struct Events<'a> {
    session: Session<'a>,
    due: u16,
    over: bool,
}

impl<'a> Iterator for Events<'a> {
    ghost use Rattle.reading_place.specs.Items.{rest_of};

    type Item = Result<Event, Bad>;

    ghost next_gives = { YieldsFirst rest_of };

    ghost remaining = { item_count rest_of };

    #[tactic(auto, using(crate::proofs::Yields::first_item, crate::proofs::Yields::no_item), unfolding(session::specs::Reading::events_at, session::specs::Reading::follow))]
    fn next(&mut self) -> Option<Result<Event, Bad>> {
        if self.over {
            return None;
        }
        if self.due == 0 {
            self.over = true;
            return match session::end_at(self.session.src, self.session.at) {
                Ok(()) => None,
                Err(bad) => Some(Err(bad)),
            };
        }
        self.due -= 1;
        let item = self.session.event();
        self.over = item.is_err();
        Some(item)
    }
}
