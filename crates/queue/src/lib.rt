// The queue's calls over a lent array, and their checks.
#![tactic(auto)]

ghost use Rattle.std.specs.Prelude.{◌≡◌, [], ◌∷◌, length, IfOk};
ghost use Rattle.rules.specs.Calls.{first_failing, array_checks, insert_checks, take_checks, queue_of, ◌else◌};
ghost use Rattle.rules.specs.Calls as rules;
ghost use Rattle.rules.specs.Book.{sound};
ghost use Rattle.rules.specs.Answers.{BookBroken, answer_in};
ghost use Rattle.rules.specs.Queue.{held};
ghost use Rattle.buffers.specs.Format.{book_of, lent_of, links_in};
ghost use Rattle.queue.specs.Calls.{Gives, SlotsKept, WorkKept};

use rules::{Done, Link, Outcome, Refusal};

// The array's checks, that every call but setup makes first: 2 (one link's words), 4 (link number), 2 (its words).
#[tactic(auto, using(crate::proofs::CheckLaws::of_array))]
fn array_checked(a: &[u64]) -> Result<Link, Refusal>
    ensures answer { answer_in result ≡ first_failing (array_checks (lent_of a.now) []) }
    ensures last { IfOk result (λ last. last.i ≡ links_in a.now) }
{
    if a.len() < Link::at(1).words() {
        return Err(Refusal::ArrayShort);
    }
    let number = buffers::counters::links(a);
    if number < 1 || (Link::MOST as u64) < number {
        return Err(Refusal::BookBroken);
    }
    let last = Link::at(number as usize);
    if a.len() < last.words() {
        return Err(Refusal::ArrayShort);
    }
    Ok(last)
}

// The array's checks, then 4 (the book); how many entries are held where none fails.
#[tactic(auto, using(crate::proofs::CheckLaws::of_book))]
fn checked(a: &[u64]) -> Result<u64, Refusal>
    ensures answer { answer_in result ≡ first_failing (array_checks (lent_of a.now) ((sound (book_of a.now) else BookBroken) ∷ [])) }
    ensures held { IfOk result (λ n. n ≡ held (queue_of (lent_of a.now))) }
{
    array_checked(a)?;
    buffers::sound::weighed(a).ok_or(Refusal::BookBroken)
}

// Makes an empty queue of so many links.
pub fn setup(a: &mut [u64], links: u64) -> Outcome
    ensures called { Gives a.old a.new (rules.setup links (lent_of a.old)) result }
    ensures slots_kept { SlotsKept a.old a.new }
{
    if links < 1 || (Link::MOST as u64) < links {
        return Err(Refusal::NoSuchLinks);
    }
    let links = links as usize;
    if a.len() < Link::at(links).words() {
        return Err(Refusal::ArrayShort);
    }
    buffers::fresh::begin(a, links);
    Ok(Done::default())
}

// The checks of take and look: those of every call, then 6.
#[tactic(auto, using(crate::proofs::CallLaws::of_take))]
fn checked_for_take(a: &[u64]) -> Result<(), Refusal>
    ensures { answer_in result ≡ first_failing (take_checks (lent_of a.now)) }
{
    if checked(a)? == 0 {
        return Err(Refusal::NoneHeld);
    }
    Ok(())
}

// Takes the smallest entry held.
pub fn take(a: &mut [u64]) -> Outcome
    ensures { Gives a.old a.new (rules.take (lent_of a.old)) result }
{
    checked_for_take(a)?;
    let rule = buffers::counters::rule(a);
    let links = buffers::counters::links(a) as usize;
    let taken = takes::take_one(rule, a, links);
    Ok(Done {
        word: taken.entry.unwrap_or(0),
        steps: taken.steps,
        packed: false,
    })
}

// Says the smallest entry held, and removes nothing.
pub fn look(a: &mut [u64]) -> Outcome
    ensures { Gives a.old a.new (rules.look (lent_of a.old)) result }
{
    checked_for_take(a)?;
    let rule = buffers::counters::rule(a);
    let links = buffers::counters::links(a) as usize;
    let steps = takes::make_ready(rule, a, links);
    let head = takes::head_now(rule, a, links);
    Ok(Done {
        word: head.unwrap_or(0),
        steps,
        packed: false,
    })
}

// Says how many entries are held.
pub fn held(a: &[u64]) -> Outcome
    ensures { Gives a.now a.now (rules.held_call (lent_of a.now)) result }
{
    Ok(Done {
        word: checked(a)?,
        ..Done::default()
    })
}

// Checks the order of all entries.
pub fn audit(a: &[u64]) -> Outcome
    ensures { Gives a.now a.now (rules.audit (lent_of a.now)) result }
{
    checked(a)?;
    let rule = buffers::counters::rule(a);
    if !order::in_order(rule, a) {
        return Err(Refusal::OrderBroken);
    }
    Ok(Done::default())
}

// The checks of insert: the array's, then 3, 4, 7, 5.
#[tactic(auto, using(crate::proofs::InsertCheckLaws::of_insert))]
fn checked_for_insert(a: &[u64], work: usize, entry: u64) -> Result<(), Refusal>
    ensures { answer_in result ≡ first_failing (insert_checks work entry (lent_of a.now)) }
{
    let last = array_checked(a)?;
    let most = last.most();
    if work < most {
        return Err(Refusal::WorkShort);
    }
    let held = buffers::sound::weighed(a).ok_or(Refusal::BookBroken)?;
    let door = (entry >> 24) % 256;
    if 2 < door {
        return Err(Refusal::DoorAbove);
    }
    if most as u64 <= held {
        return Err(Refusal::Full);
    }
    Ok(())
}

// Puts an entry in.
pub fn insert(a: &mut [u64], work: &mut [u64], entry: u64) -> Outcome
    ensures called { Gives a.old a.new (rules.insert (length work.old) entry (lent_of a.old)) result }
    ensures work_kept { WorkKept (links_in a.old) (answer_in result) work.old work.new }
{
    checked_for_insert(a, work.len(), entry)?;
    let rule = buffers::counters::rule(a);
    paths::place_entry(rule, a, entry);
    let made = sweeps::make_room(rule, a, work);
    Ok(Done {
        word: 0,
        steps: made.steps,
        packed: made.packed,
    })
}
