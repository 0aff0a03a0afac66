ghost use Rattle.std.specs.Prelude.{◌≡◌, ◌+◌, ◌/◌, ◌≤◌, true, IfOk};
ghost use Rattle.tariff.specs.Calendar.{minute_of};
ghost use Rattle.tariff.specs.Comparison.{comparison_days};
ghost use Rattle.tariff.specs.Season.{day_at, standing};
ghost use Rattle.tariff.specs.Sound.{Fit};
ghost use Rattle.tariff.specs.declared.season.Day.TheVariants.{Standing};
ghost use Rattle.baseline.specs.Measuring.{Bounded};
ghost use Rattle.season.specs.View.{view};
ghost use Rattle.statement.specs.Measured.{standing_measured};

use crate::site::SeasonSite;
use baseline::days::ComparisonDays;
use baseline::event::measure_event;
use baseline::measured::MeasuredEvent;
use baseline::span::EventSpan;
use meter::meter::Meter;
use season::Season;
use tariff::season::Event;
use tariff::statement::EventFault;

// The days that a standing event is compared with.
pub(crate) fn comparison_of(season: &Season, day: u8) -> ComparisonDays
    requires { standing (view season.now) day ≡ true }
    ensures { result.days ≡ comparison_days (view season.now) day }
{
    season
        .comparison_days(u32::from(day))
        .and_then(ComparisonDays::new)
        .unwrap()
}

// An event as it is measured: with the hour of the day in which its notice fell.
// The day's bound stays a clause, as in measuring a day.
pub(crate) fn span_of(number: u8, day: u8, event: Event) -> EventSpan
    requires day { day ≤ 75 }
    requires four { event.length ≤ 4 }
    requires ends { event.start + event.length ≤ 24 }
    requires notice { 120 ≤ minute_of event.notice }
    ensures number { result.number ≡ number }
    ensures day { result.day ≡ day }
    ensures notice { result.notice ≡ minute_of event.notice / 60 }
    ensures start { result.start ≡ event.start }
    ensures length { result.length ≡ event.length }
{
    EventSpan {
        number,
        day,
        notice: (event.notice % 1440 / 60) as u8,
        start: event.start,
        length: event.length,
    }
}

impl SeasonSite<'_> {
    // Measures the event that stands on a day, for the site: the days to compare with are read first, then the event's own day.
    pub(crate) fn measure_standing<M: Meter>(
        &self,
        meter: &mut M,
        day: u8,
        event: Event,
        number: u8,
    ) -> Result<MeasuredEvent, EventFault>
        requires stands { day_at (view self.now.season.now) day ≡ Standing event }
        requires fit { Fit (view self.now.season.now).year day event }
        ensures answer { result ≡ standing_measured (view self.now.season.now) self.now.site.now (M.table meter.old) number day event }
        ensures bounds { IfOk result Bounded }
        ensures keeps { M.table meter.new ≡ M.table meter.old }
    {
        let days = comparison_of(self.season, day);
        let span = span_of(number, day, event);
        let nominated = self.nomination_on(day);
        measure_event(meter, &days, &span, nominated).map_err(|fault| EventFault {
            event: number,
            fault,
        })
    }
}
