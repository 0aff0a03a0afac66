// The sites of a season, in the order of their enrolment.
ghost use Rattle.std.specs.Prelude.{◌≡◌, ◌+◌, ◌-◌, ◌<◌, ◌≤◌, ◌&&◌, [], ◌∷◌, ◌++◌, length, nat_le, nat_lt, slice_index_or, slice_set, if◌then◌else◌, Some, None};
ghost use Rattle.tariff.specs.Calls.{figure_outside};
ghost use Rattle.tariff.specs.Kinds as kinds;
ghost use Rattle.tariff.specs.Season.{enrolled_site, no_site, nominated_site};
ghost use Rattle.season.specs.Blank.{Blank};

use tariff::season::{Kind, Site};

// The least nomination of a site of a kind, in kW.
fn least_kw(kind: Kind) -> u32
    ensures { result ≡ kinds.least_kw kind }
{
    match kind {
        Kind::Single => 20,
        Kind::Aggregated => 35,
    }
}

// A figure that a site of a kind may not name, in kW.
pub(crate) fn is_figure_outside(kind: Kind, kw: u32) -> bool
    ensures { result ≡ figure_outside kind kw }
{
    !(least_kw(kind)..=100_000).contains(&kw)
}

// Takes a site's figure for a week, counted from 1, and for all later weeks.
fn take_figure(site: &mut Site, week: u32, kw: u32)
    requires { (1 ≤ week) × (week ≤ 10) }
    ensures { site.new ≡ nominated_site site.old week kw }
{
    site.highest = site.highest.max(kw);
    site.weeks[week as usize - 1..].fill(kw);
}

// Room for 64 sites, of which the first `count` are enrolled; the other cells are blank.
// A fixed array with its count, since no call is refused for want of memory; an `ArrayVec` needs none, but is no `Copy`, as a season is.
#[derive(Clone, Copy, PartialEq, Eq)]
pub struct SiteTable {
    pub count: u8,
    pub sites: [Site; 64],
    ghost room: { count ≤ 64 },
    ghost cells: { length sites ≡ 64 },
    ghost blank: { Blank count sites },
}

impl SiteTable {
    ghost use Rattle.season.specs.Tables.{listed};

    // A table with no site.
    #[tactic(auto, unfolding(crate::specs::Blank::zeros, crate::specs::Blank::blanks))]
    pub(crate) fn new() -> SiteTable
        ensures { result.count ≡ 0 }
    {
        let blank = Site {
            kind: Kind::Single,
            highest: 0,
            weeks: [0; 10],
        };
        SiteTable {
            count: 0,
            sites: [blank; 64],
        }
    }

    // How many sites are enrolled.
    pub(crate) fn len(&self) -> u32
        ensures is { result ≡ length (listed self.now) }
        ensures counted { result ≡ self.now.count }
    {
        self.enrolled().len() as u32
    }

    // The enrolled sites.
    fn enrolled(&self) -> &[Site]
        ensures is { result.now ≡ listed self.now }
        ensures long { length result.now ≡ self.now.count }
    {
        &self.sites[..usize::from(self.count)]
    }

    // The site of a number, counted from 1, where there is one.
    pub(crate) fn at(&self, number: u32) -> Option<Site>
        ensures { result ≡ (if nat_le 1 number && nat_le number (length (listed self.now)) then Some (slice_index_or (listed self.now) (number - 1) no_site) else None) }
    {
        let place = number.checked_sub(1)?;
        self.enrolled().get(place as usize).copied()
    }

    // One site more, with one figure for all weeks.
    #[tactic(auto, using(std::proofs::lemmas::List::take_more_set))]
    pub(crate) fn enrol(&mut self, kind: Kind, kw: u32)
        requires { self.old.count < 64 }
        ensures list { listed self.new ≡ listed self.old ++ (enrolled_site kind kw ∷ []) }
        ensures one { self.new.count ≡ self.old.count + 1 }
    {
        self.sites[self.count as usize] = Site {
            kind,
            highest: kw,
            weeks: [kw; 10],
        };
        self.count += 1;
    }

    // A figure of one site, for a week and all later weeks; sites and weeks are counted from 1.
    pub(crate) fn nominate(&mut self, number: u32, week: u32, kw: u32)
        requires site { (1 ≤ number) × (number ≤ self.old.count) }
        requires week { (1 ≤ week) × (week ≤ 10) }
        ensures list { listed self.new ≡ slice_set (listed self.old) (number - 1) (nominated_site (slice_index_or (listed self.old) (number - 1) no_site) week kw) }
        ensures same { self.new.count ≡ self.old.count }
    {
        let site = &mut self.sites[number as usize - 1];
        take_figure(site, week, kw);
    }
}
