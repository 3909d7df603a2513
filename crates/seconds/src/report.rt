// The report on lines of seconds, and their sum.
ghost use Rattle.std.specs.Prelude.{◌≡◌, ℕ, ◌+◌, IfOk, Some, string_bytes, Result};
ghost use Rattle.std.specs.Result.{result_map_both};
ghost use Rattle.durations.specs.Totals.{total};
ghost use Rattle.seconds.specs.Seconds.{Is};
ghost use Rattle.seconds.specs.Report.{answer_text, in_range, time, report};

use crate::line::read_seconds;
use durations::SignedDuration;
use std::alloc::Global;
use std::fmt;
use units::{Fault, Unit};

// A time, or why there is none: what is printed of a line, and of the sum.
#[derive(Clone, Copy)]
struct Answer(Result<SignedDuration, Fault>);

impl fmt::Display for Answer {
    ghost output = { λ a. Some (answer_text (result_map_both total (λ f. f) a.0)) };

    fn fmt<W: fmt::Write>(&self, f: &mut fmt::Formatter<W>) -> fmt::Result {
        match self.0 {
            Ok(duration) => write!(f, "{duration}"),
            Err(fault) => write!(f, "{fault}"),
        }
    }
}

impl Answer {
    // The sum with one line's time more: a refused line adds nothing, and a sum that has left the range stays out.
    fn plus(self, line: Answer) -> Answer
        ensures { (n : ℕ) (said : Result ℕ Fault) → Is self.0 (in_range n) → Is line.0 said → Is result.0 (in_range (n + time said)) }
    {
        let (Ok(sum), Ok(time)) = (self.0, line.0) else {
            return self;
        };
        let sum = sum.checked_add(time);
        Answer(sum.ok_or(Fault::OverflowForUnit { unit: Unit::Second }))
    }
}

// A line for each line of the input, with its number and its time or refusal, and last their sum.
pub fn add_up(heap: Global, input: &[u8]) -> Result<String, fmt::Error>
    ensures { IfOk result (λ text. string_bytes text ≡ report input.now) }
{
    let mut text = String::new(heap);
    let mut sum = Answer(Ok(SignedDuration::from_secs(0)));
    for (before, piece) in input.split_inclusive(|byte| *byte == b'\n').enumerate() {
        // The last line may have no line feed.
        let line = piece.strip_suffix(b"\n").unwrap_or(piece);
        let answer = Answer(read_seconds(line));
        let number = before + 1;
        writeln!(text, "{number} {answer}")?;
        sum = sum.plus(answer);
    }
    writeln!(text, "total {sum}")?;
    Ok(text)
}
