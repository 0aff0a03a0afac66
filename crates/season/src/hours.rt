// The hours of the standing events, by day and hour.
ghost use Rattle.std.specs.Prelude.{◌≡◌, ◌+◌, ◌<◌, ◌≤◌, true, [], ◌∷◌, ◌++◌, map, length};
ghost use Rattle.std.specs.List.{range_with_len};
ghost use Rattle.tariff.specs.Events.{day_hours, event_hour, event_of, hours_on, stands};
ghost use Rattle.season.specs.Rest.{RestZero};

use tariff::season::{Day, Event, EventHour};

// Up to 60 hours, of which the first `count` are used; the other entries are zero.
// A fixed array with its count: the type is public and `Copy`, which an `ArrayVec` is not, and nothing here wants memory.
#[derive(Clone, Copy)]
pub struct EventHours {
    pub hours: [EventHour; 60],
    pub count: usize,
}

// The hours as they are listed, with what is known of the list at each step.
#[derive(Clone, Copy)]
pub(crate) struct HoursSoFar {
    pub(crate) list: EventHours,
    ghost cells: { length list.hours ≡ 60 },
    ghost within: { list.count ≤ 60 },
    ghost rest: { RestZero list.count list.hours },
}

impl HoursSoFar {
    ghost use Rattle.season.specs.Hours.{hours_listed};

    // No hours yet.
    pub(crate) fn new() -> HoursSoFar
        ensures { result.list.count ≡ 0 }
    {
        HoursSoFar {
            list: EventHours {
                hours: [EventHour::default(); 60],
                count: 0,
            },
        }
    }

    // Adds one hour at the end.
    fn push(&mut self, hour: EventHour)
        requires { self.old.list.count < 60 }
        ensures list { hours_listed self.new.list ≡ hours_listed self.old.list ++ (hour ∷ []) }
        ensures one { self.new.list.count ≡ self.old.list.count + 1 }
    {
        self.list.hours[self.list.count] = hour;
        self.list.count += 1;
    }

    // Adds the hours of an event, rising.
    fn push_event(&mut self, number: u8, day: u8, event: Event)
        requires room { self.old.list.count + event.length ≤ 60 }
        requires ends { event.start + event.length ≤ 24 }
        ensures list { hours_listed self.new.list ≡ hours_listed self.old.list ++ map (event_hour number day) (range_with_len event.start event.length) }
        ensures more { self.new.list.count ≡ self.old.list.count + event.length }
    {
        // by the hour's number, which each entry holds
        for hour in event.start..event.start + event.length {
            self.push(EventHour {
                event: number,
                day,
                hour,
            });
        }
    }

    // Adds the hours of the event that stands on a day, if one does.
    pub(crate) fn push_day(&mut self, number: u8, day: u8, held: Day)
        requires room { self.old.list.count + day_hours held ≤ 60 }
        requires ends { stands held ≡ true → (event_of held).start + (event_of held).length ≤ 24 }
        ensures list { hours_listed self.new.list ≡ hours_listed self.old.list ++ hours_on number day held }
        ensures more { self.new.list.count ≡ self.old.list.count + day_hours held }
    {
        if let Some(event) = held.standing() {
            self.push_event(number, day, event);
        }
    }
}
