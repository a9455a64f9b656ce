//! The call of the checker program.
ghost use Rattle.std.specs.Prelude.{◌≡◌, ◌≢◌, ◌<◌, None, Some, length, IfOk, MatchOption};
ghost use Rattle.std.specs.Option.{option_copied};
ghost use Rattle.cd_outside.specs.Outside.{Rose};
ghost use Rattle.cd_read.specs.Formed.{IsFormed, IsBounded};
ghost use Rattle.cd_read.specs.Fetched.{FetchesAtMost};
ghost use Rattle.cd_checktop.specs.Texts.{answer_text};
ghost use Rattle.cd_checktop.specs.Checked.{status_of, two_words, IsChecked, IsDerived, IsTextAnswer, IsAnswerOf, IsLibraryFault, Takes, IsAnswerTo, IsSettled, FetchesFew};

use crate::answer::{CheckAnswer, CheckOutcome};
use crate::texts::answer_text;
use cd_check::{Verdict, check_text};
use cd_list::{Copied, Sequence, Text};
use cd_outside::{Bytes, FetchFault, Library, Sink};
use cd_read::{Problem, ReadFault, What, Wrong, read_problem};
use cd_report::send;
use std::alloc::{AllocError, Global};

/// The most bytes of a derivation.
const CAP: usize = 67_108_864;

/// Checks the derivation in the file of the second word against the problem in the file of the first, and writes the
/// verdict.
///
/// The library and the sink say by their counts when they failed, and may tell what they gave and took.
pub fn check<L: Library, K: Sink>(
    alloc: Global,
    words: &[Text],
    library: &mut L,
    sink: &mut K,
) -> CheckOutcome
    ensures checked { IsChecked (L.holds library.old) (two_words words.now) (L.told library.old) (L.told library.new) result.made }
    ensures library_fault { IsLibraryFault result.made → Rose (L.faults library.old) (L.faults library.new) }
    ensures fetched { FetchesFew (L.told library.old) (L.told library.new) }
    ensures taken { Takes result.answer (K.taken sink.old) (K.taken sink.new) result.made }
    ensures sink_fault { result.answer ≡ CheckAnswer.SinkFault → Rose (K.faults sink.old) (K.faults sink.new) }
    ensures answer { IsAnswerTo result.made result.answer }
    ensures settled { two_words words.now ≢ None → ¬ Rose (L.faults library.old) (L.faults library.new)
        → ¬ Rose (K.faults sink.old) (K.faults sink.new) → IsSettled result.answer }
    ensures status { result.status ≡ status_of result.answer }
{
    let Ok((made, text)) = make(alloc, words, library) else {
        return without_memory();
    };
    let Ok(copy) = made.copy(alloc) else {
        return without_memory();
    };
    let answer = match send(sink, text.as_slice()) {
        Ok(()) => copy,
        Err(_) => CheckAnswer::SinkFault,
    };
    CheckOutcome {
        status: answer.status(),
        answer,
        made,
    }
}

fn without_memory() -> CheckOutcome
    ensures made { result.made ≡ CheckAnswer.Memory }
    ensures answer { result.answer ≡ CheckAnswer.Memory }
    ensures status { result.status ≡ 71 }
{
    CheckOutcome {
        status: 71,
        answer: CheckAnswer::Memory,
        made: CheckAnswer::Memory,
    }
}

// Everything before the first write.
fn make<L: Library>(
    alloc: Global,
    words: &[Text],
    library: &mut L,
) -> Result<(CheckAnswer, Bytes), AllocError>
    ensures checked { IfOk result (λ r. IsChecked (L.holds library.old) (two_words words.now) (L.told library.old) (L.told library.new) r.0) }
    ensures library_fault { IfOk result (λ r. IsLibraryFault r.0 → Rose (L.faults library.old) (L.faults library.new)) }
    ensures fetched { FetchesFew (L.told library.old) (L.told library.new) }
    ensures text { IfOk result (λ r. r.1 ≡ answer_text r.0) }
    ensures first { IfOk result (λ r. (r.0 ≢ CheckAnswer.SinkFault) × (r.0 ≢ CheckAnswer.Memory)) }
{
    let made = answer(alloc, words, library)?;
    let text = answer_text(alloc, &made)?;
    Ok((made, text))
}

fn answer<L: Library>(
    alloc: Global,
    words: &[Text],
    library: &mut L,
) -> Result<CheckAnswer, AllocError>
    ensures checked { IfOk result (IsChecked (L.holds library.old) (two_words words.now) (L.told library.old) (L.told library.new)) }
    ensures library_fault { IfOk result (λ made. IsLibraryFault made → Rose (L.faults library.old) (L.faults library.new)) }
    ensures fetched { FetchesFew (L.told library.old) (L.told library.new) }
    ensures first { IfOk result (λ made. (made ≢ CheckAnswer.SinkFault) × (made ≢ CheckAnswer.Memory)) }
{
    let Some((path, derivation)) = two_words(words) else {
        return Ok(CheckAnswer::Usage);
    };
    answer_for(alloc, path, derivation, library)
}

fn two_words(words: &[Text]) -> Option<(&Text, &Text)>
    ensures { MatchOption result (two_words words.now ≡ None) (λ x. two_words words.now ≡ Some (x.0.now, x.1.now)) }
{
    match words {
        [path, derivation] => Some((path, derivation)),
        _ => None,
    }
}

// What comes of these two paths.
fn answer_for<L: Library>(
    alloc: Global,
    path: &Text,
    derivation: &Text,
    library: &mut L,
) -> Result<CheckAnswer, AllocError>
    ensures checked { IfOk result (IsChecked (L.holds library.old) (Some (path.now, derivation.now)) (L.told library.old) (L.told library.new)) }
    ensures library_fault { IfOk result (λ made. IsLibraryFault made → Rose (L.faults library.old) (L.faults library.new)) }
    ensures fetched { FetchesFew (L.told library.old) (L.told library.new) }
    ensures first { IfOk result (λ made. (made ≢ CheckAnswer.SinkFault) × (made ≢ CheckAnswer.Memory)) }
{
    match read_problem(alloc, library, path) {
        Err(fault) => answer_of(fault),
        Ok(problem) => judge(alloc, &problem, derivation, library),
    }
}

// What a fault of reading is answered with.
fn answer_of(fault: ReadFault) -> Result<CheckAnswer, AllocError>
    ensures { IfOk result (IsAnswerOf fault) }
{
    match fault {
        ReadFault::Memory => Err(AllocError),
        ReadFault::Library { path } => Ok(CheckAnswer::LibraryFault { path }),
        ReadFault::Wrong(wrong) => Ok(CheckAnswer::Problem(wrong)),
    }
}

// What comes of the derivation behind a problem.
fn judge<L: Library>(
    alloc: Global,
    problem: &Problem,
    derivation: &Text,
    library: &mut L,
) -> Result<CheckAnswer, AllocError>
    requires formed { IsFormed problem.now }
    requires bounded { IsBounded problem.now }
    ensures derived { IfOk result (IsDerived problem.now derivation.now (L.holds library.old derivation.now) (L.told library.old) (L.told library.new)) }
    ensures library_fault { IfOk result (λ made. IsLibraryFault made → Rose (L.faults library.old) (L.faults library.new)) }
    ensures fetched { FetchesAtMost 67108865 (L.told library.old) (L.told library.new) }
{
    let mut text = Sequence::new(alloc);
    match library.fetch(derivation, CAP as u64 + 1, &mut text) {
        Ok(()) => judge_text(alloc, problem, derivation, text.as_slice()),
        Err(FetchFault::Memory) => Err(AllocError),
        Err(FetchFault::Failed) => {
            let path = derivation.copy(alloc)?;
            Ok(CheckAnswer::LibraryFault { path })
        }
    }
}

fn judge_text(
    alloc: Global,
    problem: &Problem,
    derivation: &Text,
    text: &[u8],
) -> Result<CheckAnswer, AllocError>
    requires formed { IsFormed problem.now }
    requires bounded { IsBounded problem.now }
    ensures { IfOk result (IsTextAnswer problem.now derivation.now text.now) }
{
    if text.len() > CAP {
        let file = derivation.copy(alloc)?;
        let wrong = Wrong {
            what: What::Long,
            file,
            at: 0,
        };
        return Ok(CheckAnswer::Problem(wrong));
    }
    match check_text(alloc, problem, text)? {
        Verdict::Accepted { lines } => Ok(CheckAnswer::Accepted { lines }),
        Verdict::Refused { line, why } => Ok(CheckAnswer::Refused { line, why }),
    }
}
