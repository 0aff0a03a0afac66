ghost use Rattle.std.specs.Prelude.{◌≡◌, ◌≤◌, [], ◌∷◌, ◌++◌, length, if◌then◌else◌, nat_lt, Ok, Err};
ghost use Rattle.pay.specs.Listed.{listed};
ghost use Rattle.pay.specs.declared.list.PushRefusal.TheVariants.{ListFull};

use crate::list::{HourList, PushRefusal};
use crate::placed::PlacedHour;
use tariff::statement::MeasuredHour;

impl HourList {
    // A list without hours.
    pub fn none() -> HourList
        ensures { listed result ≡ [] }
    {
        let hour = PlacedHour {
            measured: MeasuredHour::default(),
            week: 0,
        };
        HourList {
            hours: [hour; 60],
            count: 0,
        }
    }

    // The hours.
    pub(crate) fn as_slice(&self) -> &[PlacedHour]
        ensures hours { result.now ≡ listed self.now }
        ensures few { length result.now ≤ 60 }
    {
        &self.hours[..usize::from(self.count)]
    }

    // How many hours there are.
    pub fn len(&self) -> usize
        ensures value { result ≡ length (listed self.now) }
        ensures count { result ≡ self.now.count }
    {
        self.as_slice().len()
    }

    // One hour more at the end, where there is room.
    #[tactic(auto, using(std::proofs::lemmas::List::take_more_set))]
    pub fn push(&mut self, hour: PlacedHour) -> Result<(), PushRefusal>
        ensures room { result ≡ (if nat_lt (length (listed self.old)) 60 then Ok tt else Err ListFull) }
        ensures after { listed self.new ≡ (if nat_lt (length (listed self.old)) 60 then listed self.old ++ hour ∷ [] else listed self.old) }
    {
        if self.len() >= 60 {
            return Err(PushRefusal::ListFull);
        }
        self.hours[usize::from(self.count)] = hour;
        self.count += 1;
        Ok(())
    }
}
