// Runs frames: reads standard input to its end, and answers each line on standard output.
#![tactic(auto)]

ghost use Rattle.std.specs.Prelude.{◌≡◌, ◌==◌, [], length, OnOk, OnErr, IfOk};
ghost use Rattle.rules.specs.Links.{most, words};
ghost use Rattle.lines.specs.Cutter.{kept, last_of};
ghost use Rattle.gate.specs.Runs.{Answered, AnsweredFront, AnswersPiece, StopsIn, ReadsPiece, Stops};

use lines::Cutter;
use rules::Link;
use std::io;
use std::io::{Read, Write};

// Room for 1,024 answers.
const ANSWERS: usize = 27648;

// The queue that frames run over, in the room of three links, with room for answers, and the line so far.
#[derive(Drop)]
struct Gate {
    a: [u64; Link::PROGRAM_WORDS],
    work: [u64; Link::PROGRAM_WORK],
    out: [u8; ANSWERS],
    cutter: Cutter,
}

impl Gate {
    #[tactic(auto, unfolding(rules::specs::Links::words, rules::specs::Links::most))]
    fn new() -> Self
        ensures array { length result.a ≡ words 3 }
        ensures work { length result.work ≡ most 3 }
        ensures line { kept result.cutter ≡ [] }
    {
        Self {
            a: [0; Link::PROGRAM_WORDS],
            work: [0; Link::PROGRAM_WORK],
            out: [0; ANSWERS],
            cutter: Cutter::new(),
        }
    }

    // Answers the lines of a piece. The answers are written out whenever the buffer is full, and at the end.
    fn answer_piece<W: Write>(&mut self, output: &mut W, piece: &[u8]) -> io::Result<()>
        ensures ok { OnOk result (AnswersPiece (length self.old.work) self.old.a self.new.a self.old.work self.new.work (kept self.old.cutter) (kept self.new.cutter) piece.now (W.contents output.old) (W.contents output.new)) }
        ensures err { OnErr result (StopsIn (length self.old.work) self.old.a self.new.a self.old.work self.new.work (kept self.old.cutter) piece.now (W.contents output.old) (W.contents output.new)) }
    {
        let mut at = 0;
        while at < piece.len() {
            let ran = sessions::run_piece(
                &mut self.a,
                &mut self.work,
                self.cutter,
                piece,
                at,
                &mut self.out,
            );
            self.cutter = ran.cutter;
            at = ran.at;
            streams::write_whole(output, &self.out[..ran.written])?;
        }
        Ok(())
    }

    // Reads once, and answers what came: so many bytes, and none where the input has ended.
    fn read_piece<R: Read, W: Write>(&mut self, input: &mut R, output: &mut W) -> io::Result<usize>
        ensures ok { IfOk result (λ n. ReadsPiece (length self.old.work) self.old.a self.new.a self.old.work self.new.work (kept self.old.cutter) (kept self.new.cutter) (R.remaining input.old) (R.remaining input.new) (W.contents output.old) (W.contents output.new) (n == 0)) }
        ensures err { OnErr result (Stops (length self.old.work) self.old.a self.new.a self.old.work self.new.work (kept self.old.cutter) (R.remaining input.old) (R.remaining input.new) (W.contents output.old) (W.contents output.new)) }
    {
        let mut piece = [0u8; 65536];
        let n = input.read(&mut piece)?;
        self.answer_piece(output, &piece[..n])?;
        Ok(n)
    }

    // Answers a last line without its line end.
    fn answer_last<W: Write>(&mut self, output: &mut W) -> io::Result<()>
        ensures ok { OnOk result (Answered (length self.old.work) self.old.a self.new.a self.old.work self.new.work (last_of (kept self.old.cutter)) (W.contents output.old) (W.contents output.new)) }
        ensures err { OnErr result (AnsweredFront (length self.old.work) self.old.a self.new.a self.old.work self.new.work (last_of (kept self.old.cutter)) (W.contents output.old) (W.contents output.new)) }
    {
        let written = sessions::finish(
            &mut self.a,
            &mut self.work,
            self.cutter,
            &mut self.out,
        ).unwrap();
        streams::write_whole(output, &self.out[..written])
    }
}

// A proved loop has to end, and nothing says that the input does: it takes more turns than any run uses up.
fn main(rt: HostRuntime) -> io::Result<()> {
    let mut gate = Gate::new();
    for _ in 0..u64::MAX {
        if gate.read_piece(&mut rt.stdin(), &mut rt.stdout())? == 0 {
            return gate.answer_last(&mut rt.stdout());
        }
    }
    Ok(())
}
