// Stamps of the summer: `MM-DDTHH:MM`, from 06-01T00:00 to 08-15T23:59.
ghost use Rattle.std.specs.Prelude.{◌≡◌};
ghost use Rattle.text.specs.Stamps.{two_digits, day_of_summer, minute_of_day, moment_of, stamp_of};
ghost use Rattle.text.specs.Stamps.{StampsLieInTheSummer, WrittenStampsReadBack, AMomentHasOneStamp, StampsWorkedOut};

const MINUTES_OF_HOUR: u32 = 60;

const MINUTES_OF_DAY: u32 = 1440;

// The number that two decimal digits write.
fn two_digits(tens: u8, units: u8) -> Option<u32>
    ensures { result ≡ two_digits tens units }
{
    let tens = char::from(tens).to_digit(10)?;
    let units = char::from(units).to_digit(10)?;
    Some(tens * 10 + units)
}

// The day of the summer, June 1 being 0.
fn day_of_summer(month: u32, day: u32) -> Option<u32>
    ensures { result ≡ day_of_summer month day }
{
    match (month, day) {
        (6, 1..=30) => Some(day - 1),
        (7, 1..=31) => Some(30 + (day - 1)),
        (8, 1..=15) => Some(61 + (day - 1)),
        _ => None,
    }
}

// The minute of the day.
fn minute_of_day(hour: u32, minute: u32) -> Option<u32>
    ensures { result ≡ minute_of_day hour minute }
{
    (hour < 24 && minute < MINUTES_OF_HOUR).then(|| hour * MINUTES_OF_HOUR + minute)
}

// The moment of a month, a day, an hour and a minute.
#[tactic(auto, unfolding(crate::specs::Stamps::moment_of))]
fn moment(month: u32, day: u32, hour: u32, minute: u32) -> Option<u32>
    ensures { result ≡ moment_of month day hour minute }
{
    let d = day_of_summer(month, day)?;
    let m = minute_of_day(hour, minute)?;
    Some(d * MINUTES_OF_DAY + m)
}

// The moment that a stamp names, in minutes since June 1, 00:00.
#[tactic(auto, unfolding(crate::specs::Stamps::stamp_of))]
pub fn stamp(word: &str) -> Option<u32>
    ensures { result ≡ stamp_of word.now }
{
    let [m10, m1, b'-', d10, d1, b'T', h10, h1, b':', min10, min1] = *word.as_bytes() else {
        return None;
    };
    let month = two_digits(m10, m1)?;
    let day = two_digits(d10, d1)?;
    let hour = two_digits(h10, h1)?;
    let minute = two_digits(min10, min1)?;
    moment(month, day, hour, minute)
}

// A stamp names no moment after August 15, 23:59, which is 109,439.
#[tactic(auto, using(crate::proofs::Stamps::stamps_lie_in_the_summer_lem))]
pub fn stamps_lie_in_the_summer()
    ensures { StampsLieInTheSummer }
{}

// Every moment of the summer, written as a stamp and read, is that moment again.
#[tactic(auto, using(crate::proofs::Stamps::written_stamps_read_back_lem))]
pub fn written_stamps_read_back()
    ensures { WrittenStampsReadBack }
{}

// No two words name one moment: a word that does is the moment written as a stamp.
#[tactic(auto, using(crate::proofs::Stamps::a_moment_has_one_stamp_lem))]
pub fn a_moment_has_one_stamp()
    ensures { AMomentHasOneStamp }
{}

// Stamps worked out by hand: the first, the last, first days of months, and words that are no stamps.
#[tactic(auto, using(crate::proofs::Stamps::stamps_worked_out_lem))]
pub fn stamps_worked_out()
    ensures { StampsWorkedOut }
{}
