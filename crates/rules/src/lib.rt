// The links' sizes, and what a call answers. Document 01's rules stand in specs/.
#![tactic(auto)]

ghost use Rattle.std.specs.Prelude.{◌≡◌, ◌+◌, ◌≤◌, ◌<◌};
ghost use Rattle.rules.specs.Answers.{number_of, answer_as, answer_in, Numbered};
ghost use Rattle.rules.specs.Links.{k, s, first, capacity, start, offset, most, most_links, words, LinkNumber, InLink};

// A link, by its number from 1 on. Whoever needs a size asks here.
#[derive(Clone, Copy)]
pub struct Link {
    pub i: usize,
}

impl Link {
    // The most links that a queue has.
    pub const MOST: usize = 4;

    // The words of the book, and the slots of the insertion buffer I behind it.
    pub const BOOK: usize = 256;

    pub const INSERTION: usize = 8;

    // The buffers of the link that has the most, and places for the numbers of a path.
    pub const WIDEST: usize = 32;

    pub const PATH: usize = 16;

    // The words and the work area of three links, for which the program keeps room.
    pub const PROGRAM_WORDS: usize = 2628;

    pub const PROGRAM_WORK: usize = 960;

    pub fn at(i: usize) -> Self
        ensures { result.i ≡ i }
    {
        Self { i }
    }

    // How many S the link has.
    #[tactic(auto, using(crate::proofs::Table::at_link), unfolding(crate::specs::Links::k))]
    pub fn k(self) -> usize
        requires { LinkNumber self.i }
        ensures { result ≡ k self.i }
    {
        match self.i {
            0..=1 => 2,
            2 => 4,
            3 => 8,
            _ => 16,
        }
    }

    // The capacity of each S.
    #[tactic(auto, using(crate::proofs::Table::at_link), unfolding(crate::specs::Links::s))]
    pub fn s(self) -> usize
        requires { LinkNumber self.i }
        ensures { result ≡ s self.i }
    {
        match self.i {
            0..=1 => 8,
            2 => 24,
            3 => 120,
            _ => 1080,
        }
    }

    // The number of the link's A among all buffers; one past the last link it is how many buffers there are.
    #[tactic(auto, using(crate::proofs::Table::at_link), unfolding(crate::specs::Links::first))]
    pub fn first(self) -> usize
        requires { (1 ≤ self.i) × (self.i ≤ most_links + 1) }
        ensures { result ≡ first self.i }
    {
        match self.i {
            0..=1 => 1,
            2 => 5,
            3 => 13,
            4 => 29,
            _ => 61,
        }
    }

    // The most entries that a queue whose last link this is holds.
    #[tactic(auto, using(crate::proofs::Table::at_link), unfolding(crate::specs::Links::most))]
    pub fn most(self) -> usize
        requires { LinkNumber self.i }
        ensures { result ≡ most self.i }
    {
        match self.i {
            0..=1 => 16,
            2 => 96,
            3 => 960,
            _ => 17280,
        }
    }

    // The words that it needs.
    #[tactic(auto, using(crate::proofs::Table::at_link), unfolding(crate::specs::Links::words))]
    pub fn words(self) -> usize
        requires { LinkNumber self.i }
        ensures { result ≡ words self.i }
    {
        match self.i {
            0..=1 => 296,
            2 => 536,
            3 => 2628,
            _ => 28436,
        }
    }

    // The capacity of the link's buffer j.
    pub fn capacity(self, j: usize) -> usize
        requires { InLink self.i j }
        ensures { result ≡ capacity self.i j }
    {
        match self.i {
            0..=1 => 8,
            2 => match j {
                0..=1 => 64,
                2..=3 => 8,
                _ => 24,
            },
            3 => match j {
                0..=1 => 512,
                2..=3 => 8,
                4..=7 => 23,
                _ => 120,
            },
            _ => match j {
                0..=1 => 4096,
                2..=3 => 8,
                4..=7 => 64,
                8..=15 => 8,
                _ => 1080,
            },
        }
    }

    // The slot at which the link's buffer j begins.
    pub fn slot(self, j: usize) -> usize
        requires { InLink self.i j }
        ensures { result ≡ start self.i + offset self.i j }
    {
        match self.i {
            0..=1 => 8 + 8 * j,
            2 => match j {
                0..=1 => 40 + 64 * j,
                2..=3 => 168 + 8 * (j - 2),
                _ => 184 + 24 * (j - 4),
            },
            3 => match j {
                0..=1 => 280 + 512 * j,
                2..=3 => 1304 + 8 * (j - 2),
                4..=7 => 1320 + 23 * (j - 4),
                _ => 1412 + 120 * (j - 8),
            },
            _ => match j {
                0..=1 => 2372 + 4096 * j,
                2..=3 => 10564 + 8 * (j - 2),
                4..=7 => 10580 + 64 * (j - 4),
                8..=15 => 10836 + 8 * (j - 8),
                _ => 10900 + 1080 * (j - 16),
            },
        }
    }
}

// By what a queue orders its entries. There is one order today, so that nothing is to be said.
#[derive(Clone, Copy)]
pub struct Rule {}

// Why a call changes nothing.
#[derive(Clone, Copy, Debug, PartialEq, Eq)]
pub enum Refusal {
    NoSuchLinks,
    ArrayShort,
    WorkShort,
    BookBroken,
    Full,
    NoneHeld,
    DoorAbove,
    OrderBroken,
    NotAFrame,
}

// A refusal's number on paper.
impl From<Refusal> for u8 {
    ghost from_gives = { λ r n. n ≡ number_of (answer_as r) };

    fn from(refusal: Refusal) -> u8 {
        match refusal {
            Refusal::NoSuchLinks => 1,
            Refusal::ArrayShort => 2,
            Refusal::WorkShort => 3,
            Refusal::BookBroken => 4,
            Refusal::Full => 5,
            Refusal::NoneHeld => 6,
            Refusal::DoorAbove => 7,
            Refusal::OrderBroken => 9,
            Refusal::NotAFrame => 10,
        }
    }
}

// A number that no refusal has.
#[derive(Clone, Copy, Debug, PartialEq, Eq)]
pub struct NoRefusal(pub u8);

impl TryFrom<u8> for Refusal {
    type Error = NoRefusal;

    ghost try_from_gives = { Numbered };

    fn try_from(number: u8) -> Result<Self, NoRefusal> {
        match number {
            1 => Ok(Refusal::NoSuchLinks),
            2 => Ok(Refusal::ArrayShort),
            3 => Ok(Refusal::WorkShort),
            4 => Ok(Refusal::BookBroken),
            5 => Ok(Refusal::Full),
            6 => Ok(Refusal::NoneHeld),
            7 => Ok(Refusal::DoorAbove),
            9 => Ok(Refusal::OrderBroken),
            10 => Ok(Refusal::NotAFrame),
            _ => Err(NoRefusal(number)),
        }
    }
}

// What a call that is done gives back; an insert says whether it packed.
#[derive(Clone, Copy, Debug, Default, PartialEq, Eq)]
pub struct Done {
    pub word: u64,
    pub steps: u64,
    pub packed: bool,
}

// What a call answers.
pub type Outcome = Result<Done, Refusal>;

// The answer's number on paper, 0 where the call is done.
pub fn number_of(outcome: Outcome) -> u8
    ensures { result ≡ number_of (answer_in outcome) }
{
    match outcome {
        Ok(_) => 0,
        Err(refusal) => refusal.into(),
    }
}
