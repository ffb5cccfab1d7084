// The library: the queue's functions, the tally, the frames and the report of lateness over lent memory, in plain numbers; `gorgalhut_c` gives them to C.
#![tactic(auto)]

ghost use Rattle.std.specs.Prelude.{◌≡◌, leb, length, ltb, ◌^◌, ◌++◌, ◌≤◌, drop};
ghost use Rattle.rules.specs.Tests.{◌and◌};
ghost use Rattle.rules.specs.Answers.{number_of, answer_in, word_in, steps_in};
ghost use Rattle.rules.specs.Book.{sound};
ghost use Rattle.rules.specs.Links.{book_words};
ghost use Rattle.buffers.specs.Format.{book_of};
ghost use Rattle.tally.specs.Day.{tally_of};
ghost use Rattle.frames.specs.Answers.{read_back, written_back};
ghost use Rattle.frames.specs.Lines.{Laid};
ghost use Rattle.frames.specs.AnswerLine.{answer_line};
ghost use Rattle.gorgalhut.specs.Answered.{SetUp, PutIn, TakenOut, LookedAt, Counted, Audited};
ghost use Rattle.gorgalhut.specs.Numbered.{Meant, named, tallied};
ghost use Rattle.gorgalhut.specs.Framed.{asked, may_in, line_in, bytes_in, Lined, FrameRead, FrameWritten};
ghost use Rattle.lateness.specs.Reports.{Small};
ghost use Rattle.gorgalhut.specs.Timed.{numbers_of, timed_answer, timed_report};

use frames::{NotAFrame, Order};
use lateness::Row;
use rules::{Done, Link, NoRefusal, Outcome, Refusal};
use tally::{Call, Tally};

// Whether the array has a book and the book keeps every book rule.
pub fn gorgalhut_book_sound(array: &[u64]) -> bool
    ensures { result ≡ (leb book_words (length array.now) and sound (book_of array.now)) }
{
    Link::BOOK <= array.len() && buffers::sound::book_sound(array)
}

// Lays what a call answers into the lent word and steps, zeros for a refusal, and gives the answer's number.
fn lay(outcome: Outcome, word: &mut u64, steps: &mut u64) -> u8
    ensures number { result ≡ number_of (answer_in outcome) }
    ensures word_after { word.new ≡ word_in outcome }
    ensures steps_after { steps.new ≡ steps_in outcome }
{
    let done = outcome.unwrap_or_default();
    *word = done.word;
    *steps = done.steps;
    rules::number_of(outcome)
}

// Makes an empty queue of so many links.
pub fn gorgalhut_setup(array: &mut [u64], links: u64, word: &mut u64, steps: &mut u64) -> u8
    ensures { SetUp links array.old array.new result word.new steps.new }
{
    lay(queue::setup(array, links), word, steps)
}

// Puts an entry in, with a work area; `packed` says whether it packed.
pub fn gorgalhut_insert(
    array: &mut [u64],
    work: &mut [u64],
    entry: u64,
    word: &mut u64,
    steps: &mut u64,
    packed: &mut bool,
) -> u8
    ensures { PutIn entry array.old array.new work.old work.new result word.new steps.new packed.new }
{
    let put = queue::insert(array, work, entry);
    *packed = put.unwrap_or_default().packed;
    lay(put, word, steps)
}

// Takes the smallest entry held; `word` is the entry.
pub fn gorgalhut_take(array: &mut [u64], word: &mut u64, steps: &mut u64) -> u8
    ensures { TakenOut array.old array.new result word.new steps.new }
{
    lay(queue::take(array), word, steps)
}

// Looks at the smallest entry held; `word` is the entry.
pub fn gorgalhut_look(array: &mut [u64], word: &mut u64, steps: &mut u64) -> u8
    ensures { LookedAt array.old array.new result word.new steps.new }
{
    lay(queue::look(array), word, steps)
}

// Says how many entries are held; `word` is their number.
pub fn gorgalhut_held(array: &[u64], word: &mut u64, steps: &mut u64) -> u8
    ensures { Counted array.now result word.new steps.new }
{
    lay(queue::held(array), word, steps)
}

// Says whether every entry stands in order.
pub fn gorgalhut_audit(array: &[u64], word: &mut u64, steps: &mut u64) -> u8
    ensures { Audited array.now result word.new steps.new }
{
    lay(queue::audit(array), word, steps)
}

// What the number of an answer says, with these steps and this packing.
#[tactic(auto, unfolding(rules::specs::Answers::answer_of))]
fn outcome_of(answer: u8, steps: u64, packed: bool) -> Result<Outcome, NoRefusal>
    ensures { Meant answer steps packed result }
{
    if answer == 0 {
        return Ok(Ok(Done {
            word: 0,
            steps,
            packed,
        }));
    }
    let refusal = Refusal::try_from(answer)?;
    Ok(Err(refusal))
}

// Adds a call to the day's tally; says no, and adds nothing, where a number names no call or no answer.
pub fn gorgalhut_tally_add(
    inserts: &mut u64,
    takes: &mut u64,
    steps: &mut u64,
    packings: &mut u64,
    call: u8,
    answer: u8,
    made: u64,
    packed: bool,
) -> bool
    ensures value { result ≡ named call answer }
    ensures packings_after { tally_of inserts.new takes.new steps.new packings.new ≡ tallied (tally_of inserts.old takes.old steps.old packings.old) call answer made packed }
{
    let Ok(call) = Call::try_from(call) else {
        return false;
    };
    let Ok(outcome) = outcome_of(answer, made, packed) else {
        return false;
    };
    let mut tally = Tally {
        inserts: *inserts,
        takes: *takes,
        steps: *steps,
        packings: *packings,
    };
    tally.update(call, outcome);
    *inserts = tally.inserts;
    *takes = tally.takes;
    *steps = tally.steps;
    *packings = tally.packings;
    true
}

// "frame reader: not a frame; frame writer: as said under Frames"
const NOT_A_FRAME: u8 = 10;

// Reads a line without its 0A: the order's code and the number in its body.
pub fn gorgalhut_read_frame(line: &[u8], kind: &mut u8, value: &mut u64) -> u8
    ensures { FrameRead line.now result kind.new value.new }
{
    match frames::read(line) {
        Ok(order) => {
            *kind = order.code() as u8;
            *value = order.body();
            0
        }
        Err(_) => {
            *kind = 0;
            *value = 0;
            NOT_A_FRAME
        }
    }
}

// The order of a code and the number in its body, if the body has room for it, is written.
#[tactic(auto, unfolding(crate::specs::Framed::asked))]
fn write_asked(kind: u8, value: u64, out: &mut [u8]) -> Result<usize, NotAFrame>
    ensures { Laid (may_in (asked kind value).values) (line_in (asked kind value).values) out.old out.new result }
{
    frames::write(Order::of(u64::from(kind), value)?, out)
}

// A line is not written where the steps have more than its eight digits.
fn write_answer(answer: u8, word: u64, steps: u64, out: &mut [u8]) -> Result<usize, NotAFrame>
    ensures { Laid (ltb steps (2 ^ 32)) (answer_line answer word steps) out.old out.new result }
{
    let steps = u32::try_from(steps).map_err(|_| NotAFrame)?;
    frames::answer_line(answer, word, steps, out)
}

// Lays how many bytes were written; the number that comes back says whether they were.
fn told(laid: Result<usize, NotAFrame>, written: &mut usize) -> u8
    ensures number { result ≡ (written_back laid).number }
    ensures bytes { written.new ≡ bytes_in (written_back laid).values }
{
    match laid {
        Ok(n) => {
            *written = n;
            0
        }
        Err(_) => {
            *written = 0;
            NOT_A_FRAME
        }
    }
}

// Writes an order's digits without 0A; `written` is how many.
#[tactic(auto, using(crate::proofs::FramedLaws::lined))]
pub fn gorgalhut_write_frame(kind: u8, value: u64, out: &mut [u8], written: &mut usize) -> u8
    ensures { FrameWritten kind value out.old out.new result written.new }
{
    told(write_asked(kind, value, out), written)
}

// Writes the line that answers a call, with its 0A; `written` is how many bytes.
#[tactic(auto, using(crate::proofs::FramedLaws::lined))]
pub fn gorgalhut_answer_line(
    answer: u8,
    word: u64,
    steps: u64,
    out: &mut [u8],
    written: &mut usize,
) -> u8
    ensures { Lined (ltb steps (2 ^ 32)) (answer_line answer word steps) out.old out.new result written.new }
{
    told(write_answer(answer, word, steps, out), written)
}

// The numbers of a report, six for each of three doors.
const REPORT: usize = 18;

// Lays a row's six numbers at the beginning.
#[tactic(auto, using(crate::proofs::TimedLaws::row_laid))]
fn lay_row(report: &mut [i64], row: Row)
    requires in_bounds { 6 ≤ length report.old }
    requires small { Small row }
    ensures { report.new ≡ numbers_of row ++ drop 6 report.old }
{
    let seen = row.seen;
    report[0] = seen.count as i64;
    report[1] = seen.earliest;
    report[2] = seen.latest;
    report[3] = seen.sum;
    report[4] = seen.exact as i64;
    report[5] = row.median;
}

// A day's report from pairs of due and acting tick, each with a door byte: six numbers for both, for left and for right.
pub fn gorgalhut_lateness(due: &[u32], acting: &[u32], doors: &[u8], report: &mut [i64]) -> u8
    ensures value { result ≡ timed_answer due.now acting.now doors.now report.old }
    ensures report_after { report.new ≡ timed_report due.now acting.now doors.now report.old }
{
    if report.len() < REPORT {
        return NOT_A_FRAME;
    }
    match lateness::report_of(due, acting, doors) {
        Ok(made) => {
            lay_row(&mut report[12..], made.right);
            lay_row(&mut report[6..], made.left);
            lay_row(report, made.both);
            0
        }
        Err(refusal) => {
            let answer = u8::from(refusal);
            if answer == NOT_A_FRAME {
                return answer;
            }
            report[..REPORT].fill(0);
            answer
        }
    }
}
