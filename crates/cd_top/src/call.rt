//! The call that the program makes, and its two kin.
ghost use Rattle.std.specs.Prelude.{◌≡◌, ◌≢◌, ◌⊎◌, ℕ, List, [], None, Some, IfOk, IfErr};
ghost use Rattle.cd_outside.specs.Outside.{Rose};
ghost use Rattle.cd_read.specs.Formed.{IsFormed, IsBounded};
ghost use Rattle.cd_read.specs.Fetched.{IsOfLibrary};
ghost use Rattle.cd_top.specs.Asked.{AreWordsOf, HasOptions, HasValues, IsAsked, IsInRange, MayRun};
ghost use Rattle.cd_top.specs.Ends.{HasNoRun, IsEmptyAccount, IsForgotten, IsKept, IsMade, IsUnreadAnswer, IsUnsolved};
ghost use Rattle.cd_top.specs.Headline.{status_of, IsProblemOf, IsUnreadOf, IsRead, IsLibraryFault, RunEnds, AtEachMoment, HasModelsOf, AccountsForAll, IsContracted, Refutes, TextIs, Taken, TakenByLines, IsAnswerTo};

use crate::answer::{Account, Answer, ProveOutcome};
use crate::solving::solve;
use cd_ledger::Limits;
use cd_list::{Copied, Sequence, Text};
use cd_names::Policy;
use cd_options::{Options, Origins, WordsFault, grid_problem, read_words};
use cd_outside::{Bytes, Gate, Library, Sink};
use cd_read::{Problem, ReadFault, read_problem};
use cd_report::{refused_text, send, unread_text, usage_text};
use std::alloc::{AllocError, Global};
use std::sync::Wait;
use std::thread::Threads;

/// How many rewritings and tasks a peer may do together where no words say so.
const STEPS: u64 = 200_000;

/// Reads the words behind the program's name, reads or makes the problem that they name, runs the peers that they ask for, and
/// writes what came of it. So far several peers run by a stated schedule alone, and the gate isn't entered.
///
/// The library and the sink say by their counts when they failed, and may tell what they gave and took.
pub fn prove<R: Threads + Wait + Sync, L: Library, K: Sink, G: Gate + Sync>(
    _rt: &R,
    alloc: Global,
    words: &[Text],
    library: &mut L,
    sink: &mut K,
    _gate: &G,
) -> ProveOutcome
    // The words are in the grammar, and the account has what they ask for. They name a file, which spells the problem with those
    // that it includes, or has this fault first; or a generated problem.
    ensures words { AreWordsOf words.now result.made result.account.asked }
    ensures options { HasOptions result.account result.account.asked }
    ensures read { IsRead result.account.asked (L.holds library.old) (L.told library.old) (L.told library.new) result.made result.account.problem }
    ensures library_fault { IsLibraryFault result.made → Rose (L.faults library.old) (L.faults library.new) }

    // The recorded run is that of all peers, each event the one that the order of choices names, by the stated schedule where there
    // is one. It ends where the answer says, it keeps the models of the problem, accounts for each inference, and holds nothing
    // superfluous; and a refutation is one.
    ensures run { RunEnds result.account result.made result.account.problem }
    ensures models { AtEachMoment HasModelsOf result.account result.account.problem }
    ensures accounted { AtEachMoment AccountsForAll result.account result.account.problem }
    ensures contracted { AtEachMoment IsContracted result.account result.account.problem }
    ensures refutes { Refutes result.made result.account.problem }

    // The text, and what the sink took of it: each line in one piece.
    ensures text { TextIs result.made result.account.text }
    ensures taken { Taken result.answer (K.taken sink.old) (K.taken sink.new) result.account.text }
    ensures pieces { TakenByLines result.answer (K.taken sink.old) (K.taken sink.new) (K.pieces sink.old) (K.pieces sink.new) result.account.text }
    ensures sink_fault { result.answer ≡ Answer.SinkFault → Rose (K.faults sink.old) (K.faults sink.new) }

    ensures answer { IsAnswerTo result.made result.answer }
    ensures status { result.status ≡ status_of result.answer }
{
    let options = match read_words(alloc, words) {
        Ok(options) => options,
        Err(WordsFault::Usage) => return usage(alloc, sink),
        Err(WordsFault::Memory) => return without_memory(alloc),
    };
    if options.schedule.is_some() {
        return prove_scheduled(alloc, &options, library, sink);
    }
    if options.peers == 1 {
        return prove_alone(alloc, &options, library, sink);
    }
    usage(alloc, sink)
}

/// Runs one peer alone on the problem that the options name, and writes what came of it. It always returns.
pub fn prove_alone<L: Library, K: Sink>(
    alloc: Global,
    options: &Options,
    library: &mut L,
    sink: &mut K,
) -> ProveOutcome
    requires may { MayRun options.now }
    requires one { options.now.peers ≡ 1 }
    requires free { options.now.schedule ≡ None }
    ensures asked { IsAsked options.now result.made result.account.asked }
    ensures options { HasOptions result.account result.account.asked }
    ensures read { IsRead result.account.asked (L.holds library.old) (L.told library.old) (L.told library.new) result.made result.account.problem }
    ensures library_fault { IsLibraryFault result.made → Rose (L.faults library.old) (L.faults library.new) }
    ensures run { RunEnds result.account result.made result.account.problem }
    ensures models { AtEachMoment HasModelsOf result.account result.account.problem }
    ensures accounted { AtEachMoment AccountsForAll result.account result.account.problem }
    ensures contracted { AtEachMoment IsContracted result.account result.account.problem }
    ensures refutes { Refutes result.made result.account.problem }
    ensures text { TextIs result.made result.account.text }
    ensures taken { Taken result.answer (K.taken sink.old) (K.taken sink.new) result.account.text }
    ensures pieces { TakenByLines result.answer (K.taken sink.old) (K.taken sink.new) (K.pieces sink.old) (K.pieces sink.new) result.account.text }
    ensures sink_fault { result.answer ≡ Answer.SinkFault → Rose (K.faults sink.old) (K.faults sink.new) }
    ensures answer { IsAnswerTo result.made result.answer }
    ensures status { result.status ≡ status_of result.answer }
{
    proved(alloc, options, library, sink)
}

/// Runs the peers by the stated schedule on the problem that the options name, and writes what came of it. It always returns.
pub fn prove_scheduled<L: Library, K: Sink>(
    alloc: Global,
    options: &Options,
    library: &mut L,
    sink: &mut K,
) -> ProveOutcome
    requires may { MayRun options.now }
    requires stated { options.now.schedule ≢ None }
    ensures asked { IsAsked options.now result.made result.account.asked }
    ensures options { HasOptions result.account result.account.asked }
    ensures read { IsRead result.account.asked (L.holds library.old) (L.told library.old) (L.told library.new) result.made result.account.problem }
    ensures library_fault { IsLibraryFault result.made → Rose (L.faults library.old) (L.faults library.new) }
    ensures run { RunEnds result.account result.made result.account.problem }
    ensures models { AtEachMoment HasModelsOf result.account result.account.problem }
    ensures accounted { AtEachMoment AccountsForAll result.account result.account.problem }
    ensures contracted { AtEachMoment IsContracted result.account result.account.problem }
    ensures refutes { Refutes result.made result.account.problem }
    ensures text { TextIs result.made result.account.text }
    ensures taken { Taken result.answer (K.taken sink.old) (K.taken sink.new) result.account.text }
    ensures pieces { TakenByLines result.answer (K.taken sink.old) (K.taken sink.new) (K.pieces sink.old) (K.pieces sink.new) result.account.text }
    ensures sink_fault { result.answer ≡ Answer.SinkFault → Rose (K.faults sink.old) (K.faults sink.new) }
    ensures answer { IsAnswerTo result.made result.answer }
    ensures status { result.status ≡ status_of result.answer }
{
    proved(alloc, options, library, sink)
}

// The peers run as the options ask.
fn proved<L: Library, K: Sink>(
    alloc: Global,
    options: &Options,
    library: &mut L,
    sink: &mut K,
) -> ProveOutcome
    requires may { MayRun options.now }
    requires alone { options.now.schedule ≡ None → options.now.peers ≡ 1 }
    ensures made { IsMade options.now (L.holds library.old) (L.told library.old) (L.told library.new) (Rose (L.faults library.old) (L.faults library.new)) result.made result.account }
    ensures taken { Taken result.answer (K.taken sink.old) (K.taken sink.new) result.account.text }
    ensures pieces { TakenByLines result.answer (K.taken sink.old) (K.taken sink.new) (K.pieces sink.old) (K.pieces sink.new) result.account.text }
    ensures sink_fault { result.answer ≡ Answer.SinkFault → Rose (K.faults sink.old) (K.faults sink.new) }
    ensures answer { IsAnswerTo result.made result.answer }
    ensures status { result.status ≡ status_of result.answer }
{
    match make(alloc, options, library) {
        Err(_) => without_memory(alloc),
        Ok((made, account)) => written(alloc, made, account, sink),
    }
}

// The answer to words that ask for nothing that can be had.
fn usage<K: Sink>(alloc: Global, sink: &mut K) -> ProveOutcome
    ensures account { IsEmptyAccount result.account }
    ensures made { (result.made ≡ Answer.Usage) ⊎ (result.made ≡ Answer.Memory) }
    ensures text { TextIs result.made result.account.text }
    ensures taken { Taken result.answer (K.taken sink.old) (K.taken sink.new) result.account.text }
    ensures pieces { TakenByLines result.answer (K.taken sink.old) (K.taken sink.new) (K.pieces sink.old) (K.pieces sink.new) result.account.text }
    ensures sink_fault { result.answer ≡ Answer.SinkFault → Rose (K.faults sink.old) (K.faults sink.new) }
    ensures answer { IsAnswerTo result.made result.answer }
    ensures status { result.status ≡ status_of result.answer }
{
    match usage_text(alloc) {
        Err(_) => without_memory(alloc),
        Ok(text) => written(alloc, Answer::Usage, empty_account(alloc, text), sink),
    }
}

// Writes the text of an answer.
fn written<K: Sink>(alloc: Global, made: Answer, account: Account, sink: &mut K) -> ProveOutcome
    requires first { made ≢ Answer.SinkFault }
    ensures kept { IsKept made account result.made result.account }
    ensures taken { Taken result.answer (K.taken sink.old) (K.taken sink.new) result.account.text }
    ensures pieces { TakenByLines result.answer (K.taken sink.old) (K.taken sink.new) (K.pieces sink.old) (K.pieces sink.new) result.account.text }
    ensures sink_fault { result.answer ≡ Answer.SinkFault → Rose (K.faults sink.old) (K.faults sink.new) }
    ensures answer { IsAnswerTo result.made result.answer }
    ensures status { result.status ≡ status_of result.answer }
{
    let Ok(copy) = made.copy(alloc) else {
        return without_memory(alloc);
    };
    let answer = match send(sink, account.text.as_slice()) {
        Ok(()) => copy,
        Err(_) => Answer::SinkFault,
    };
    ProveOutcome {
        status: answer.status(),
        answer,
        made,
        account,
    }
}

fn without_memory(alloc: Global) -> ProveOutcome
    ensures forgotten { IsForgotten result.made result.account }
    ensures answer { result.answer ≡ Answer.Memory }
    ensures status { result.status ≡ 71 }
{
    ProveOutcome {
        status: 71,
        answer: Answer::Memory,
        made: Answer::Memory,
        account: empty_account(alloc, Sequence::new(alloc)),
    }
}

fn empty_account(alloc: Global, text: Bytes) -> Account
    ensures text { result.text ≡ text }
    ensures empty { IsEmptyAccount result }
{
    Account {
        asked: None,
        problem: None,
        peers: 1,
        policy: Policy::Round,
        limits: Limits { steps: STEPS },
        journals: Sequence::new(alloc),
        order: Sequence::new(alloc),
        text,
    }
}

// Everything before the first write.
fn make<L: Library>(
    alloc: Global,
    options: &Options,
    library: &mut L,
) -> Result<(Answer, Account), AllocError>
    requires may { MayRun options.now }
    requires alone { options.now.schedule ≡ None → options.now.peers ≡ 1 }
    ensures made { IfOk result (λ r. IsMade options.now (L.holds library.old) (L.told library.old) (L.told library.new) (Rose (L.faults library.old) (L.faults library.new)) r.0 r.1) }
    ensures first { IfOk result (λ r. r.0 ≢ Answer.SinkFault) }
{
    match problem_of(alloc, library, &options.source) {
        Err(fault) => unread(alloc, options, fault),
        Ok(problem) => solve(alloc, options, problem),
    }
}

// The problem of a file, or a generated one.
fn problem_of<L: Library>(
    alloc: Global,
    library: &mut L,
    source: &Origins,
) -> Result<Problem, ReadFault>
    requires { IsInRange source.now }
    ensures problem { IfOk result (IsProblemOf source.now (L.holds library.old) (L.told library.old) (L.told library.new)) }
    ensures formed { IfOk result IsFormed }
    ensures bounded { IfOk result IsBounded }
    ensures fault { IfErr result (λ f. f ≢ ReadFault.Memory → IsUnreadOf source.now (L.holds library.old) (L.told library.old) (L.told library.new) f) }
    ensures library { IfErr result (λ f. IsOfLibrary f → Rose (L.faults library.old) (L.faults library.new)) }
{
    match source {
        Origins::File(path) => read_problem(alloc, library, path),
        Origins::Grid(n) => match grid_problem(alloc, *n) {
            Ok(problem) => Ok(problem),
            Err(_) => Err(ReadFault::Memory),
        },
    }
}

// The answer where there is no problem.
fn unread(
    alloc: Global,
    options: &Options,
    fault: ReadFault,
) -> Result<(Answer, Account), AllocError>
    ensures answer { IfOk result (λ r. IsUnreadAnswer fault r.0) }
    ensures alone { IfOk result (λ r. IsUnsolved options.now r.0 r.1) }
{
    match fault {
        ReadFault::Memory => Err(AllocError),
        ReadFault::Library { path } => {
            let text = unread_text(alloc, &path)?;
            let account = unsolved(alloc, options, text)?;
            Ok((Answer::LibraryFault { path }, account))
        }
        ReadFault::Wrong(wrong) => {
            let text = refused_text(alloc, &wrong)?;
            let account = unsolved(alloc, options, text)?;
            Ok((Answer::Refused(wrong), account))
        }
    }
}

// The account of options without a problem.
fn unsolved(alloc: Global, options: &Options, text: Bytes) -> Result<Account, AllocError>
    ensures text { IfOk result (λ a. a.text ≡ text) }
    ensures alone { IfOk result HasNoRun }
    ensures asked { IfOk result (λ a. a.asked ≡ Some options.now) }
    ensures values { IfOk result (λ a. HasValues a options.now) }
{
    let asked = options.copy(alloc)?;
    Ok(Account {
        asked: Some(asked),
        problem: None,
        peers: options.peers,
        policy: options.policy,
        limits: Limits {
            steps: options.steps,
        },
        journals: Sequence::new(alloc),
        order: Sequence::new(alloc),
        text,
    })
}
