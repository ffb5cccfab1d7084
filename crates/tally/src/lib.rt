// The tally of a race day: one record, lent and brought up to date.
#![tactic(auto)]

ghost use Rattle.std.specs.Prelude.{◌≡◌};
ghost use Rattle.tally.specs.Day.{nothing, plus, once, added_if_done, added, up_to_date};
ghost use Rattle.rules.specs.Answers.{answer_in};
ghost use Rattle.tally.specs.Told.{told_in, told_by, Coded};

use rules::{Done, Outcome, Refusal};

// Which call it was.
#[derive(Clone, Copy, Debug, PartialEq, Eq)]
pub enum Call {
    Setup,
    Insert,
    Take,
    Look,
    Held,
    Audit,
}

// A number that no call has.
#[derive(Clone, Copy, Debug, PartialEq, Eq)]
pub struct NoCall(pub u8);

// The number of a call is its code in a frame.
impl TryFrom<u8> for Call {
    type Error = NoCall;

    ghost try_from_gives = { Coded };

    fn try_from(number: u8) -> Result<Self, NoCall> {
        match number {
            0 => Ok(Call::Setup),
            1 => Ok(Call::Insert),
            2 => Ok(Call::Take),
            3 => Ok(Call::Look),
            4 => Ok(Call::Held),
            5 => Ok(Call::Audit),
            _ => Err(NoCall(number)),
        }
    }
}

// The outcome that an answer with steps and a packing tells of; a refusal's add nothing, so they go.
#[tactic(auto, using(crate::proofs::DayLaws::told_refusal))]
pub fn told(answer: Result<(), Refusal>, steps: u64, packed: bool) -> Outcome
    ensures { result ≡ told_by (answer_in answer) steps packed }
{
    match answer {
        Ok(()) => Ok(Done {
            word: 0,
            steps,
            packed,
        }),
        Err(refusal) => Err(refusal),
    }
}

// Accepted inserts, entries handed out by take, merge steps, packings.
#[derive(Clone, Copy, Debug, Default, PartialEq, Eq)]
pub struct Tally {
    pub inserts: u64,
    pub takes: u64,
    pub steps: u64,
    pub packings: u64,
}

impl Tally {
    // A day begins with it, and a refused call adds it.
    pub fn nothing() -> Self
        ensures { result ≡ nothing }
    {
        Self::default()
    }

    // Whatever is counted of a call that is done; a look makes merge steps too.
    fn of_done(call: Call, done: Done) -> Self
        ensures { result ≡ added_if_done call done.steps done.packed }
    {
        let nothing = Self::nothing();
        let steps = done.steps;
        match call {
            Call::Setup => nothing,
            Call::Insert => Self {
                inserts: 1,
                steps,
                packings: u64::from(done.packed),
                ..nothing
            },
            Call::Take => Self {
                takes: 1,
                steps,
                ..nothing
            },
            Call::Look | Call::Held | Call::Audit => Self { steps, ..nothing },
        }
    }

    // A refused call counts for nothing.
    #[tactic(auto, unfolding(crate::specs::Day::added))]
    fn of(call: Call, outcome: Outcome) -> Self
        ensures { result ≡ added call (told_in outcome) }
    {
        match outcome {
            Ok(done) => Self::of_done(call, done),
            Err(_) => Self::nothing(),
        }
    }

    // The update by value, for whoever holds the record; a field never passes its largest value.
    #[tactic(auto, unfolding(crate::specs::Day::up_to_date))]
    pub fn updated(self, call: Call, outcome: Outcome) -> Self
        ensures { result ≡ up_to_date self call (told_in outcome) }
    {
        let more = Self::of(call, outcome);
        Self {
            inserts: self.inserts.saturating_add(more.inserts),
            takes: self.takes.saturating_add(more.takes),
            steps: self.steps.saturating_add(more.steps),
            packings: self.packings.saturating_add(more.packings),
        }
    }

    // The update of a record that is lent.
    pub fn update(&mut self, call: Call, outcome: Outcome)
        ensures { self.new ≡ up_to_date self.old call (told_in outcome) }
    {
        *self = self.updated(call, outcome);
    }

    // The same two of any answer beside any steps and packing, as numbers tell of a call; a refusal's steps and packing add nothing.
    #[tactic(auto, using(crate::proofs::DayLaws::all_told))]
    pub fn with(self, call: Call, answer: Result<(), Refusal>, steps: u64, packed: bool) -> Self
        ensures { result ≡ up_to_date self call (record { answer = answer_in answer; steps = steps; packed = packed }) }
    {
        self.updated(call, told(answer, steps, packed))
    }

    pub fn add(&mut self, call: Call, answer: Result<(), Refusal>, steps: u64, packed: bool)
        ensures { self.new ≡ up_to_date self.old call (record { answer = answer_in answer; steps = steps; packed = packed }) }
    {
        *self = self.with(call, answer, steps, packed);
    }
}
