// Figures as people read them: thousands apart, kWh of a whole Wh, dollars of a millicent or of a cent.
use std::cmp::Ordering;
use std::fmt;
use std::fmt::{Display, Formatter, InlineText, Write};

// Writes a figure or a date, none of which is longer than 32 bytes, padded as a whole to the width that is asked for.
pub(crate) fn pad<W: Write>(f: &mut Formatter<W>, text: impl Display + Drop) -> fmt::Result {
    f.pad(InlineText::<32>::of(text).as_str())
}

// The digits of a number with a comma between its thousands.
fn with_commas(number: u64) -> InlineText<32> {
    if number < 1000 {
        return InlineText::of(number);
    }
    let thousands = with_commas(number / 1000);
    InlineText::of(format_args!("{},{:03}", thousands.as_str(), number % 1000))
}

// A number, shown with a comma between its thousands.
#[derive(Clone, Copy)]
pub(crate) struct Grouped(pub u64);

impl Display for Grouped {
    fn fmt<W: Write>(&self, f: &mut Formatter<W>) -> fmt::Result {
        f.pad(with_commas(self.0).as_str())
    }
}

// An amount in Wh, shown in kWh.
#[derive(Clone, Copy)]
pub(crate) struct Kwh(pub u64);

impl Display for Kwh {
    fn fmt<W: Write>(&self, f: &mut Formatter<W>) -> fmt::Result {
        let Kwh(wh) = *self;
        pad(f, format_args!("{}.{:03}", Grouped(wh / 1000), wh % 1000))
    }
}

// An amount in millicents, shown in dollars.
#[derive(Clone, Copy)]
pub(crate) struct Dollars(pub u64);

impl Display for Dollars {
    fn fmt<W: Write>(&self, f: &mut Formatter<W>) -> fmt::Result {
        let Dollars(millicents) = *self;
        pad(
            f,
            format_args!(
                "${}.{:05}",
                Grouped(millicents / 100_000),
                millicents % 100_000
            ),
        )
    }
}

// An amount in cents, shown in dollars.
#[derive(Clone, Copy)]
pub(crate) struct Cents(pub u64);

impl Display for Cents {
    fn fmt<W: Write>(&self, f: &mut Formatter<W>) -> fmt::Result {
        let Cents(cents) = *self;
        pad(
            f,
            format_args!("${}.{:02}", Grouped(cents / 100), cents % 100),
        )
    }
}

// How one amount differs from another: a sign, and by how much.
// A sign beside the amount and no signed number: the type of the amount shows whole figures without one.
#[derive(Clone, Copy)]
pub(crate) struct Change<T> {
    sign: &'static str,
    amount: T,
}

// What the second amount has more or less than the first, shown as the type does that is named: `difference(Kwh, 1000, 3500)` is +2.500.
pub(crate) fn difference<T, F: FnOnce(u64) -> T>(shown: F, first: u64, second: u64) -> Change<T>
    requires { F.IsAlwaysCallable shown }
{
    let sign = match second.cmp(&first) {
        Ordering::Greater => "+",
        Ordering::Less => "-",
        Ordering::Equal => "",
    };
    Change {
        sign,
        amount: shown(first.abs_diff(second)),
    }
}

impl<T: Display> Display for Change<T> {
    fn fmt<W: Write>(&self, f: &mut Formatter<W>) -> fmt::Result {
        pad(f, format_args!("{}{}", self.sign, self.amount))
    }
}
