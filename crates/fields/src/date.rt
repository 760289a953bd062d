//! A date of the calendar.
ghost use Rattle.std.specs.Prelude.{◌≡◌, ◌-◌, ◌≤◌, cond};
ghost use Rattle.fields.specs.Calendar.{leap, days_in, years, months, real, days_to};

/// The numbers of a date, whether or not there is such a date.
#[derive(Clone, Copy)]
pub(crate) struct Date {
    pub(crate) year: u32,
    pub(crate) month: u32,
    pub(crate) day: u32,
    // What four and two digits can tell, so that the days before it can be counted.
    ghost short: { (year ≤ 230000) × (month ≤ 2277) × (day ≤ 2277) },
}

impl Date {
    /// Whether it is a date of 2000 to 2099.
    pub(crate) fn is_real(&self) -> bool
        ensures { result ≡ real self.now.year self.now.month self.now.day }
    {
        2000 <= self.year
            && self.year <= 2099
            && 1 <= self.month
            && self.month <= 12
            && 1 <= self.day
            && self.day <= days_in(self.year, self.month)
    }

    /// The whole days before it, from 1 January 2000 on.
    #[tactic(auto, using(crate::proofs::Dates::years_at_most, crate::proofs::Dates::months_at_most))]
    pub(crate) fn days_before(&self) -> u32
        ensures value { result ≡ days_to self.now.year self.now.month self.now.day }
        ensures small { result ≤ 100000000 }
    {
        self.days_of_years() + self.days_of_months() + self.day.saturating_sub(1)
    }

    // The days of the years before its own.
    fn days_of_years(&self) -> u32
        ensures { result ≡ years (self.now.year - 2000) }
    {
        (2000..self.year).map(days_in_year).sum()
    }

    // The days of the months before its own, in its year.
    fn days_of_months(&self) -> u32
        ensures { result ≡ months self.now.year (self.now.month - 1) }
    {
        (1..self.month).map(|month| days_in(self.year, month)).sum()
    }
}

fn is_leap(year: u32) -> bool
    ensures { result ≡ leap year }
{
    year % 4 == 0 && (year % 100 != 0 || year % 400 == 0)
}

fn days_in_year(year: u32) -> u32
    ensures { result ≡ cond (leap year) 366 365 }
{
    if is_leap(year) { 366 } else { 365 }
}

fn days_in(year: u32, month: u32) -> u32
    ensures { result ≡ days_in year month }
{
    match month {
        2 => { if is_leap(year) { 29 } else { 28 } }
        4 | 6 | 9 | 11 => 30,
        _ => 31,
    }
}
