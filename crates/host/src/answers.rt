// The answers, written into the output.
ghost use Rattle.std.specs.Prelude.{◌≤◌, length};
ghost use Rattle.marks.specs.MarkSets.{marks_of};
ghost use Rattle.marks.specs.Sets.{◌∈◌};
ghost use Rattle.host.specs.Host.{AnswersIn};
ghost use Rattle.host.specs.Steps.{Cleared, Answered};

use marks::set::MarkSet;
use readings::answer::Answer;
use readings::reading::Reading;

// Writes "not" for every mark of the width.
fn clear(out: &mut [u8], width: u16)
    requires { width ≤ length out.old }
    ensures { Cleared width out.old out.new }
{
    out[..width as usize].fill(Answer::Not.number());
}

// Writes the answer for every mark of the set.
fn put_answers(out: &mut [u8], marks: &MarkSet, reading: &Reading)
    requires { marks.now.width ≤ length out.old }
    ensures { Answered (λ m. m ∈ marks_of marks.now) (marks_of reading.now.lower) (marks_of reading.now.upper) out.old out.new }
{
    let mut at = 0;
    while let Some(m) = marks.next(at) {
        out[m as usize] = reading.answer(m).number();
        at = m + 1;
    }
}

// Writes the answer for every mark: all are "not" but those in T or in U.
pub(crate) fn write_answers(out: &mut [u8], reading: &Reading)
    requires { reading.now.lower.width ≤ length out.old }
    ensures { AnswersIn reading.now.lower.width (marks_of reading.now.lower) (marks_of reading.now.upper) out.old out.new }
{
    clear(out, reading.lower.width());
    put_answers(out, &reading.lower, reading);
    put_answers(out, &reading.upper, reading);
}
