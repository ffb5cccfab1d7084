// Reads pairs, one a line, to the end of standard input, and prints how punctual each door was, or why it does not.
#![tactic(auto)]

ghost use Rattle.std.specs.Prelude.{◌≡◌, ◌==◌, [], ◌++◌, ◌+◌, ◌≤◌, length, OnOk, OnErr, IfOk, MatchResult, IfSome, ◌<◌, ◌⊎◌};
ghost use Rattle.std.specs.Io.KnownBytes.{Keeps};
ghost use Rattle.streams.specs.Fronts.{ConsumesFront};
ghost use Rattle.pairs.specs.State.{lines_after};
ghost use Rattle.pairs.specs.Kept.{Kept};
ghost use Rattle.pairs.specs.Reads.{reads_of, last_reads};
ghost use Rattle.lines.specs.Cutter.{kept};
ghost use Rattle.late.specs.Lines.{seen_text, mean_text, row_line, report_lines, trouble_line};
ghost use Rattle.late.specs.Says.{said, kept_said, says};
ghost use Rattle.late.specs.Runs.{Told, ToldFront, TellsHeard, TellsFront, HearsPiece, PairsOf};

use lateness::{MOST_PAIRS, Report, Row, Seen};
use pairs::Heard;
use std::io;
use std::io::{Read, Write};
use text::Line;

// 230 bytes are room for every line of a report.
const ROOM: usize = 690;

// Why there is no report. Lines are counted from 1.
#[derive(Clone, Copy, Debug, PartialEq, Eq)]
pub enum Trouble {
    TooManyLines,
    NoPair(usize),
    DoorAbove(usize),
}

fn lay_seen(out: &mut Line<ROOM>, seen: Seen)
    requires { length out.old + 143 ≤ ROOM }
    ensures text { out.new ≡ out.old ++ seen_text seen }
    ensures few { length out.new ≤ length out.old + 143 }
{
    out.field(b"count ", seen.count);
    out.field(b"  earliest ", seen.earliest);
    out.field(b"  latest ", seen.latest);
    out.field(b"  sum ", seen.sum);
    out.field(b"  exact ", seen.exact);
}

// Sum and count as they stand: dividing would lose what is left.
fn lay_mean(out: &mut Line<ROOM>, seen: Seen)
    requires { length out.old + 49 ≤ ROOM }
    ensures text { out.new ≡ out.old ++ mean_text seen }
    ensures few { length out.new ≤ length out.old + 49 }
{
    out.field(b"  mean ", seen.sum);
    out.field(b"/", seen.count);
}

fn lay_row(out: &mut Line<ROOM>, name: &[u8], row: Row)
    requires { length out.old + length name.now + 223 ≤ ROOM }
    ensures text { out.new ≡ out.old ++ row_line name.now row }
    ensures few { length out.new ≤ length out.old + length name.now + 223 }
{
    out.text(name);
    lay_seen(out, row.seen);
    out.field(b"  median ", row.median);
    lay_mean(out, row.seen);
    out.text(b"\n");
}

fn lay_report(report: Report) -> Line<ROOM>
    ensures { result ≡ report_lines report }
{
    let mut out = Line::new();
    lay_row(&mut out, b"both   ", report.both);
    lay_row(&mut out, b"left   ", report.left);
    lay_row(&mut out, b"right  ", report.right);
    out
}

fn lay_trouble(trouble: Trouble) -> Line<ROOM>
    ensures { result ≡ trouble_line trouble }
{
    let mut out = Line::new();
    match trouble {
        Trouble::TooManyLines => out.text(b"refused 15: more than 4096 lines\n"),
        Trouble::NoPair(line) => {
            out.field(b"refused 10: line ", line as u64);
            out.text(b" is no pair\n");
        }
        Trouble::DoorAbove(line) => {
            out.field(b"refused 7: line ", line as u64);
            out.text(b" has a door above 2\n");
        }
    }
    out
}

// A report on standard output, a refusal on standard error.
fn write_out<W: Write, E: Write>(
    output: &mut W,
    errors: &mut E,
    answer: Result<Report, Trouble>,
) -> io::Result<()>
    ensures ok { OnOk result (Told (said answer) (W.contents output.old) (W.contents output.new) (E.contents errors.old) (E.contents errors.new)) }
    ensures err { OnErr result (ToldFront (said answer) (W.contents output.old) (W.contents output.new) (E.contents errors.old) (E.contents errors.new)) }
    ensures other { MatchResult answer (λ report. errors.new ≡ errors.old) (λ trouble. output.new ≡ output.old) }
{
    match answer {
        Ok(report) => streams::write_whole(output, lay_report(report).as_slice()),
        Err(trouble) => streams::write_whole(errors, lay_trouble(trouble).as_slice()),
    }
}

// A day as it is read: what is heard of the input, and the pairs so far.
#[derive(Drop)]
struct Day {
    due: [u32; MOST_PAIRS],
    acting: [u32; MOST_PAIRS],
    doors: [u8; MOST_PAIRS],
    heard: Heard,
}

impl Day {
    ghost use Rattle.late.specs.Runs.{day_state};

    fn new() -> Self
        ensures begins { Kept [] (day_state result) }
        ensures line { kept result.heard.cutter ≡ [] }
    {
        Self {
            due: [0; MOST_PAIRS],
            acting: [0; MOST_PAIRS],
            doors: [0; MOST_PAIRS],
            heard: Heard::new(),
        }
    }

    // Reads once, and hears what came: so many bytes, and none where the input has ended.
    fn read_piece<R: Read>(&mut self, input: &mut R) -> io::Result<usize>
        ensures ok { IfOk result (λ n. HearsPiece (day_state self.old) (kept self.old.heard.cutter) (day_state self.new) (kept self.new.heard.cutter) (R.remaining input.old) (R.remaining input.new) (n == 0)) }
        ensures err { OnErr result (Keeps (R.remaining input.old) (R.remaining input.new) × (self.new ≡ self.old)) }
    {
        let mut piece = [0; 65536];
        let n = input.read(&mut piece)?;
        self.heard = self.heard.hear(
            &mut self.due,
            &mut self.acting,
            &mut self.doors,
            &piece[..n],
        );
        Ok(n)
    }

    // What there is to say of all lines, by what is kept of them.
    fn say(&self) -> Result<Report, Trouble>
        ensures { said result ≡ kept_said self.now.due self.now.acting self.now.doors self.now.heard.lines self.now.heard.wrong }
    {
        let lines = self.heard.lines;
        if MOST_PAIRS < lines {
            return Err(Trouble::TooManyLines);
        }
        if let Some(line) = self.heard.wrong {
            return Err(Trouble::NoPair(line));
        }
        let doors = &self.doors[..lines];
        let line = lateness::first_above(doors) + 1;
        let above = Err(Trouble::DoorAbove(line));
        lateness::report_of(&self.due[..lines], &self.acting[..lines], doors).or(above)
    }

    // The last line, and what there is to say.
    fn answer<W: Write, E: Write>(&mut self, output: &mut W, errors: &mut E) -> io::Result<()>
        ensures ok { OnOk result (TellsHeard (day_state self.old) (kept self.old.heard.cutter) (W.contents output.old) (W.contents output.new) (E.contents errors.old) (E.contents errors.new)) }
        ensures err { OnErr result (TellsFront (day_state self.old) (kept self.old.heard.cutter) (W.contents output.old) (W.contents output.new) (E.contents errors.old) (E.contents errors.new)) }
        ensures other { (output.new ≡ output.old) ⊎ (errors.new ≡ errors.old) }
        ensures pairs { PairsOf self.new.due self.new.acting self.new.doors (lines_after (day_state self.old) (last_reads (kept self.old.heard.cutter))) }
    {
        self.heard = self
            .heard
            .finish(&mut self.due, &mut self.acting, &mut self.doors);
        write_out(output, errors, self.say())
    }
}

// Reads to the end of the input, and tells of its lines. A proved loop has to end, and nothing says that the input does:
// it takes more turns than any run uses up, and each but the last reads a byte at least.
fn run<R: Read, W: Write, E: Write>(input: &mut R, output: &mut W, errors: &mut E) -> io::Result<()>
    ensures ok { OnOk result (IfSome (R.remaining input.old) (λ bytes. length bytes < u64.MAX → Told (says (reads_of bytes)) (W.contents output.old) (W.contents output.new) (E.contents errors.old) (E.contents errors.new))) }
    ensures err { OnErr result (IfSome (R.remaining input.old) (λ bytes. length bytes < u64.MAX → ToldFront (says (reads_of bytes)) (W.contents output.old) (W.contents output.new) (E.contents errors.old) (E.contents errors.new))) }
    ensures other { (output.new ≡ output.old) ⊎ (errors.new ≡ errors.old) }
    ensures read { ConsumesFront (R.remaining input.old) (R.remaining input.new) }
{
    let mut day = Day::new();
    for _turn in 0..u64::MAX {
        if day.read_piece(input)? == 0 {
            return day.answer(output, errors);
        }
    }
    Ok(())
}

fn main(rt: HostRuntime) -> io::Result<()> {
    run(&mut rt.stdin(), &mut rt.stdout(), &mut rt.stderr())
}
