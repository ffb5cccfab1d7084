// The library's functions under their C names, for C and Rust to link: each calls the library's own and promises the same.
#![tactic(auto)]

ghost use Rattle.std.specs.Prelude.{◌≡◌, leb, length, ltb, ◌^◌};
ghost use Rattle.rules.specs.Tests.{◌and◌};
ghost use Rattle.rules.specs.Book.{sound};
ghost use Rattle.rules.specs.Links.{book_words};
ghost use Rattle.buffers.specs.Format.{book_of};
ghost use Rattle.tally.specs.Day.{tally_of};
ghost use Rattle.frames.specs.AnswerLine.{answer_line};
ghost use Rattle.gorgalhut.specs.Answered.{SetUp, PutIn, TakenOut, LookedAt, Counted, Audited};
ghost use Rattle.gorgalhut.specs.Numbered.{named, tallied};
ghost use Rattle.gorgalhut.specs.Framed.{Lined, FrameRead, FrameWritten};
ghost use Rattle.gorgalhut.specs.Timed.{timed_answer, timed_report};

// Whether the array has a book and the book keeps every book rule.
#[unsafe(no_mangle)]
pub extern "C" fn gorgalhut_book_sound(array: &[u64]) -> bool
    ensures { result ≡ (leb book_words (length array.now) and sound (book_of array.now)) }
{
    gorgalhut::gorgalhut_book_sound(array)
}

// Makes an empty queue of so many links.
#[unsafe(no_mangle)]
pub extern "C" fn gorgalhut_setup(
    array: &mut [u64],
    links: u64,
    word: &mut u64,
    steps: &mut u64,
) -> u8
    ensures { SetUp links array.old array.new result word.new steps.new }
{
    gorgalhut::gorgalhut_setup(array, links, word, steps)
}

// Puts an entry in, with a work area; `packed` says whether it packed.
#[unsafe(no_mangle)]
pub extern "C" fn gorgalhut_insert(
    array: &mut [u64],
    work: &mut [u64],
    entry: u64,
    word: &mut u64,
    steps: &mut u64,
    packed: &mut bool,
) -> u8
    ensures { PutIn entry array.old array.new work.old work.new result word.new steps.new packed.new }
{
    gorgalhut::gorgalhut_insert(array, work, entry, word, steps, packed)
}

// Takes the smallest entry held; `word` is the entry.
#[unsafe(no_mangle)]
pub extern "C" fn gorgalhut_take(array: &mut [u64], word: &mut u64, steps: &mut u64) -> u8
    ensures { TakenOut array.old array.new result word.new steps.new }
{
    gorgalhut::gorgalhut_take(array, word, steps)
}

// Looks at the smallest entry held; `word` is the entry.
#[unsafe(no_mangle)]
pub extern "C" fn gorgalhut_look(array: &mut [u64], word: &mut u64, steps: &mut u64) -> u8
    ensures { LookedAt array.old array.new result word.new steps.new }
{
    gorgalhut::gorgalhut_look(array, word, steps)
}

// Says how many entries are held; `word` is their number.
#[unsafe(no_mangle)]
pub extern "C" fn gorgalhut_held(array: &[u64], word: &mut u64, steps: &mut u64) -> u8
    ensures { Counted array.now result word.new steps.new }
{
    gorgalhut::gorgalhut_held(array, word, steps)
}

// Says whether every entry stands in order.
#[unsafe(no_mangle)]
pub extern "C" fn gorgalhut_audit(array: &[u64], word: &mut u64, steps: &mut u64) -> u8
    ensures { Audited array.now result word.new steps.new }
{
    gorgalhut::gorgalhut_audit(array, word, steps)
}

// Adds a call to the day's tally; says no, and adds nothing, where a number names no call or no answer.
#[unsafe(no_mangle)]
pub extern "C" fn gorgalhut_tally_add(
    inserts: &mut u64,
    takes: &mut u64,
    steps: &mut u64,
    packings: &mut u64,
    call: u8,
    answer: u8,
    made: u64,
    packed: bool,
) -> bool
    ensures value { result ≡ named call answer }
    ensures packings_after { tally_of inserts.new takes.new steps.new packings.new ≡ tallied (tally_of inserts.old takes.old steps.old packings.old) call answer made packed }
{
    gorgalhut::gorgalhut_tally_add(inserts, takes, steps, packings, call, answer, made, packed)
}

// Reads a line without its 0A: the order's code and the number in its body.
#[unsafe(no_mangle)]
pub extern "C" fn gorgalhut_read_frame(line: &[u8], kind: &mut u8, value: &mut u64) -> u8
    ensures { FrameRead line.now result kind.new value.new }
{
    gorgalhut::gorgalhut_read_frame(line, kind, value)
}

// Writes an order's digits without 0A; `written` is how many.
#[unsafe(no_mangle)]
pub extern "C" fn gorgalhut_write_frame(
    kind: u8,
    value: u64,
    out: &mut [u8],
    written: &mut usize,
) -> u8
    ensures { FrameWritten kind value out.old out.new result written.new }
{
    gorgalhut::gorgalhut_write_frame(kind, value, out, written)
}

// Writes the line that answers a call, with its 0A; `written` is how many bytes.
#[unsafe(no_mangle)]
pub extern "C" fn gorgalhut_answer_line(
    answer: u8,
    word: u64,
    steps: u64,
    out: &mut [u8],
    written: &mut usize,
) -> u8
    ensures { Lined (ltb steps (2 ^ 32)) (answer_line answer word steps) out.old out.new result written.new }
{
    gorgalhut::gorgalhut_answer_line(answer, word, steps, out, written)
}

// A day's report from pairs of due and acting tick, each with a door byte: six numbers for both, for left and for right.
#[unsafe(no_mangle)]
pub extern "C" fn gorgalhut_lateness(
    due: &[u32],
    acting: &[u32],
    doors: &[u8],
    report: &mut [i64],
) -> u8
    ensures value { result ≡ timed_answer due.now acting.now doors.now report.old }
    ensures report_after { report.new ≡ timed_report due.now acting.now doors.now report.old }
{
    gorgalhut::gorgalhut_lateness(due, acting, doors, report)
}
