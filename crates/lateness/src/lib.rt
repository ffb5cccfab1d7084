// How punctual the doors were: lateness in whole ticks, and for each door byte a report of it.
#![tactic(auto)]

ghost use Rattle.std.specs.Prelude.{◌≡◌, ◌<◌, List, [], ◌∷◌, ℤ, length, IfOk, MatchResult};
ghost use Rattle.std.specs.Int.Signed.{mag};
ghost use Rattle.lateness.specs.Clock.{turn, half, lateness_of, above_of, late_at};
ghost use Rattle.lateness.specs.Ordered.{numbered, at_most, Numbered};
ghost use Rattle.lateness.specs.Pairs.{Pair, pairs_of, of_door, Lent};
ghost use Rattle.lateness.specs.Reports.{hits, seen_of, Few, row_of, first_above, answer_of, report_of};
ghost use Rattle.lateness.specs.Answers.{number_of, reported};

use std::marker::Model;

// The earliest lateness that there can be.
const EARLIEST: i64 = -2147483648;

// As many pairs as a day has at most.
pub const MOST_PAIRS: usize = 4096;

// The door bytes that a report has a row for.
const BOTH: u8 = 0;

const LEFT: u8 = 1;

const RIGHT: u8 = 2;

// Why there is no report.
#[derive(Clone, Copy, Debug, PartialEq, Eq)]
pub enum Refusal {
    DoorAbove,
    NoPairs,
    TooMany,
}

impl From<Refusal> for u8 {
    ghost from_gives = { λ refusal number. number ≡ number_of refusal };

    fn from(refusal: Refusal) -> u8 {
        match refusal {
            Refusal::DoorAbove => 7,
            Refusal::NoPairs => 10,
            Refusal::TooMany => 15,
        }
    }
}

// What one pass over a door's pairs tells.
#[derive(Clone, Copy, Debug, Default, PartialEq, Eq)]
pub struct Seen {
    pub count: u64,
    pub earliest: i64,
    pub latest: i64,
    pub sum: i64,
    pub exact: u64,
}

// One door's numbers.
#[derive(Clone, Copy, Debug, Default, PartialEq, Eq)]
pub struct Row {
    pub seen: Seen,
    pub median: i64,
}

#[derive(Clone, Copy, Debug, PartialEq, Eq)]
pub struct Report {
    pub both: Row,
    pub left: Row,
    pub right: Row,
}

#[tactic(auto, using(crate::proofs::SignedLaws::lateness_read))]
pub fn lateness(due: u32, acting: u32) -> i64
    ensures { result ≡ lateness_of due acting }
{
    i64::from(acting.wrapping_sub(due).cast_signed())
}

// Lateness counted from the earliest that there can be.
#[tactic(auto, using(crate::proofs::SignedLaws::raised_is))]
fn above(late: i64) -> u64
    requires { mag late < half }
    ensures { result ≡ above_of late }
{
    (late - EARLIEST) as u64
}

#[tactic(auto, using(crate::proofs::SignedLaws::lowered_is))]
fn late_at(above: u64) -> i64
    requires { above < turn }
    ensures { result ≡ late_at above }
{
    above as i64 + EARLIEST
}

impl Seen {
    // One pair more.
    fn with(self, late: i64) -> Self
        requires late_bound { mag late < half }
        requires few { Few self }
        ensures { (xs : List ℤ) → self ≡ seen_of xs → result ≡ seen_of (late ∷ xs) }
    {
        let exact = self.exact + u64::from(late == 0);
        if self.count == 0 {
            return Self {
                count: 1,
                earliest: late,
                latest: late,
                sum: late,
                exact,
            };
        }
        Self {
            count: self.count + 1,
            earliest: late.min(self.earliest),
            latest: late.max(self.latest),
            sum: late + self.sum,
            exact,
        }
    }
}

// A day's pairs, lent as three lists.
#[derive(Drop)]
struct Day<'a> {
    due: &'a [u32],
    acting: &'a [u32],
    doors: &'a [u8],
}

impl<'a> Model for Day<'a> {
    ghost Value = { List Pair };

    ghost view = { λ day. pairs_of day.due.now day.acting.now day.doors.now };

    ghost invariant = { λ day. Lent day.due.now day.acting.now day.doors.now };
}

impl<'a> Day<'a> {
    // Lists of different lengths are no pairs.
    #[tactic(auto, using(crate::proofs::CheckLaws::answer_laws))]
    fn checked(due: &'a [u32], acting: &'a [u32], doors: &'a [u8]) -> Result<Self, Refusal>
        ensures answer { MatchResult result (λ day. 0 ≡ answer_of due.now acting.now doors.now) (λ refusal. number_of refusal ≡ answer_of due.now acting.now doors.now) }
        ensures pairs { IfOk result (λ day. day ≡ pairs_of due.now acting.now doors.now) }
    {
        if due.len() != doors.len() || acting.len() != doors.len() {
            return Err(Refusal::NoPairs);
        }
        if MOST_PAIRS < doors.len() {
            return Err(Refusal::TooMany);
        }
        if first_above(doors) < doors.len() {
            return Err(Refusal::DoorAbove);
        }
        Ok(Self { due, acting, doors })
    }

    // A door's pairs in one pass, from the last to the first.
    fn seen(&self, door: u8) -> Seen
        ensures value { result ≡ seen_of (of_door door self.now) }
        ensures few { Few result }
    {
        let mut seen = Seen::default();
        for i in (0..self.doors.len()).rev() {
            if self.doors[i] == door {
                seen = seen.with(lateness(self.due[i], self.acting[i]));
            }
        }
        seen
    }

    // How many of a door's pairs are late by at most so much.
    fn at_most(&self, door: u8, most: i64) -> u64
        ensures { result ≡ at_most most (of_door door self.now) }
    {
        let mut count = 0;
        for i in (0..self.doors.len()).rev() {
            if self.doors[i] == door && lateness(self.due[i], self.acting[i]) <= most {
                count += 1;
            }
        }
        count
    }

    // The least lateness that at least so many of a door's pairs do not exceed, by halving from the earliest to the latest.
    fn number_in_order(&self, door: u8, number: u64, earliest: i64, latest: i64) -> i64
        requires { Numbered number earliest latest (of_door door self.now) }
        ensures { result ≡ numbered number (of_door door self.now) }
    {
        let mut low = above(earliest);
        let mut high = above(latest);
        while low < high {
            let middle = (low + high) / 2;
            if self.at_most(door, late_at(middle)) < number {
                low = middle + 1;
            } else {
                high = middle;
            }
        }
        late_at(low)
    }

    fn row(&self, door: u8) -> Row
        ensures { result ≡ row_of (of_door door self.now) }
    {
        let seen = self.seen(door);
        if seen.count == 0 {
            return Row::default();
        }
        let middle = (seen.count + 1) / 2;
        let median = self.number_in_order(door, middle, seen.earliest, seen.latest);
        Row { seen, median }
    }
}

// The place of the first door byte above 2, or behind the last.
pub fn first_above(doors: &[u8]) -> usize
    ensures { result ≡ first_above doors.now }
{
    doors
        .iter()
        .position(|door| 2 < *door)
        .unwrap_or(doors.len())
}

pub fn report_of(due: &[u32], acting: &[u32], doors: &[u8]) -> Result<Report, Refusal>
    ensures { reported result ≡ report_of due.now acting.now doors.now }
{
    let day = Day::checked(due, acting, doors)?;
    Ok(Report {
        both: day.row(BOTH),
        left: day.row(LEFT),
        right: day.row(RIGHT),
    })
}
