// Frames run over lent memory: one line in, one answer line out, the input in any pieces.
#![tactic(auto)]

ghost use Rattle.std.specs.Prelude.{[], ◌∷◌, length};
ghost use Rattle.frames.specs.Answers.{read_back};
ghost use Rattle.lines.specs.Answers.{ended_back};
ghost use Rattle.lines.specs.Cutter.{kept, last_of};
ghost use Rattle.rules.specs.Answers.{answer_in};
ghost use Rattle.buffers.specs.Format.{lent_of};
ghost use Rattle.queue.specs.Calls.{Gives, Besides};
ghost use Rattle.sessions.specs.Runs.{asked, order_call, line_call, Left, Served, PieceRan, NoMore};

use frames::{ANSWER, NotAFrame, Order};
use lines::{Cutter, Ended};
use rules::{Outcome, Refusal};

// One more than the largest number that eight digits write.
const EIGHT: u64 = 1 << 32;

// Does an order.
#[tactic(auto, unfolding(crate::specs::Runs::order_call, rules::specs::Examples::call))]
pub fn perform(a: &mut [u64], work: &mut [u64], order: Order) -> Outcome
    ensures called { Gives a.old a.new (order_call (length work.old) order (lent_of a.old)) result }
    ensures besides { Besides (asked order) a.old a.new work.old work.new (answer_in result) }
{
    match order {
        Order::Setup(links) => queue::setup(a, u64::from(links)),
        Order::Insert(entry) => queue::insert(a, work, u64::from(entry)),
        Order::Take => queue::take(a),
        Order::Look => queue::look(a),
        Order::Held => queue::held(a),
        Order::Audit => queue::audit(a),
    }
}

// Does what a line says; a line that is no frame changes nothing and is answered 10.
#[tactic(auto, unfolding(crate::specs::Runs::values_call))]
pub fn perform_line(a: &mut [u64], work: &mut [u64], read: Result<Order, NotAFrame>) -> Outcome
    ensures called { Gives a.old a.new (line_call (length work.old) (read_back read) (lent_of a.old)) result }
    ensures left { Left (read_back read).values a.old a.new work.old work.new (answer_in result) }
{
    match read {
        Ok(order) => perform(a, work, order),
        Err(NotAFrame) => Err(Refusal::NotAFrame),
    }
}

// Answers a line at the start of a buffer; where there is no room for the answer nothing is done.
pub fn answer(
    a: &mut [u64],
    work: &mut [u64],
    read: Result<Order, NotAFrame>,
    out: &mut [u8],
) -> Result<usize, NotAFrame>
    ensures { Served (length work.old) a.old a.new work.old work.new (read_back read ∷ []) out.old out.new result }
{
    if out.len() < ANSWER {
        return Err(NotAFrame);
    }
    let outcome = perform_line(a, work, read);
    let done = outcome.unwrap_or_default();
    let steps = (done.steps % EIGHT) as u32;
    frames::answer_line(rules::number_of(outcome), done.word, steps, out)
}

// The same for a line that may have ended.
fn answer_ended(
    a: &mut [u64],
    work: &mut [u64],
    ended: Ended,
    out: &mut [u8],
) -> Result<usize, NotAFrame>
    ensures { Served (length work.old) a.old a.new work.old work.new (ended_back ended) out.old out.new result }
{
    match ended {
        Some(read) => answer(a, work, read, out),
        None => Ok(0),
    }
}

// at is the place behind the last byte that was read, written how many bytes of answers were written.
#[derive(Clone, Copy, Debug)]
pub struct Ran {
    pub cutter: Cutter,
    pub at: usize,
    pub written: usize,
}

// Answers the lines of a piece from a place on, until the piece ends or there is no room for another answer.
pub fn run_piece(
    a: &mut [u64],
    work: &mut [u64],
    cutter: Cutter,
    piece: &[u8],
    at: usize,
    out: &mut [u8],
) -> Ran
    ensures piece_ran { PieceRan (length work.old) a.old a.new work.old work.new (kept cutter) piece.now at out.old out.new (kept result.cutter) result.at result.written }
    ensures no_more { NoMore piece.now result.at out.old result.written }
{
    let mut ran = Ran {
        cutter,
        at,
        written: 0,
    };
    while ran.at < piece.len() && ANSWER <= out.len() - ran.written {
        let next = ran.cutter.next_line(piece, ran.at);
        let room = &mut out[ran.written..ran.written + ANSWER];
        ran = Ran {
            cutter: next.cutter,
            at: next.at,
            written: ran.written + answer_ended(a, work, next.ended, room).unwrap(),
        };
    }
    ran
}

// Answers the last line, which counts if it has at least one byte.
pub fn finish(
    a: &mut [u64],
    work: &mut [u64],
    cutter: Cutter,
    out: &mut [u8],
) -> Result<usize, NotAFrame>
    ensures { Served (length work.old) a.old a.new work.old work.new (last_of (kept cutter)) out.old out.new result }
{
    answer_ended(a, work, cutter.finish(), out)
}
