//! Words read as options.
#![tactic(auto)]

ghost use Rattle.std.specs.Prelude.{◌≡◌, ℕ, List, map, option_map, IfOk, IsErrOf, MatchOption, IsUtf8, None, Some, Option, Err, ◌≢◌};
ghost use Rattle.std.specs.List.{AllByRecursion};
ghost use Rattle.cd_names.specs.declared.ownership.Policy.{Policy};
ghost use Rattle.cd_options.specs.declared.options.Options.{Options};
ghost use Rattle.cd_options.specs.declared.options.Origins.{Origins};
ghost use Rattle.cd_options.specs.declared.options.WordsFault.TheVariants as fault;
ghost use Rattle.cd_options.specs.Options.{Asks, IsCount, IsPolicy, IsSeed, IsSource, Spell};
ghost use Rattle.cd_options.specs.Chosen.{values_in};

use crate::command::matched;
use crate::numbers::number;
use crate::options::{Options, Origins, WordsFault};
use cd_list::Text;
use cd_names::Policy;
use clap::error::ErrorKind;
use std::alloc::{AllocError, Global};

/// What the words give, before their values are read.
#[derive(Clone, Copy)]
pub struct Chosen<'a> {
    pub peers: Option<&'a str>,
    pub steps: Option<&'a str>,
    allocate: Option<&'a str>,
    schedule: Option<&'a str>,
    grid: Option<&'a str>,
    file: Option<&'a str>,
}

/// The words where they stand.
fn lent<'a>(alloc: Global, words: &'a [Text]) -> Result<Vec<&'a str>, AllocError>
    ensures same { IfOk result (λ r. map (λ w. w.now) r.items ≡ words.entry.now) }
    ensures text { IfOk result (λ r. AllByRecursion (λ w. IsUtf8 w.now) r.items) }
{
    let mut lent = Vec::with_capacity(alloc, words.len())?;
    for word in words {
        lent.push(word.as_str())?;
    }
    Ok(lent)
}

/// The number of a value in a range, or the default where there is no value. `None` exactly where the value is no such
/// number.
fn count_of(value: Option<&str>, default: u64, least: u64, most: u64) -> Option<u64>
    ensures { MatchOption result ((n : ℕ) → IsCount default least most (option_map (λ t. t.now) value.entry) n → ⊥)
        (IsCount default least most (option_map (λ t. t.now) value.entry)) }
{
    match value {
        None => Some(default),
        Some(text) => number(text.as_bytes(), least, most),
    }
}

/// The policy of a value, or the default. `None` exactly where the value names no policy.
fn policy_of(value: Option<&str>) -> Option<Policy>
    ensures { MatchOption result ((p : Policy) → IsPolicy (option_map (λ t. t.now) value.entry) p → ⊥)
        (IsPolicy (option_map (λ t. t.now) value.entry)) }
{
    let Some(text) = value else {
        return Some(Policy::Round);
    };
    if text == "round" {
        return Some(Policy::Round);
    }
    if text == "issuer" {
        return Some(Policy::Issuer);
    }
    if text == "size" {
        return Some(Policy::Size);
    }
    None
}

/// The seed of a value, if there is one. `None` exactly where the value is no number.
fn seed_of(value: Option<&str>) -> Option<Option<u64>>
    ensures { MatchOption result ((s : Option ℕ) → IsSeed (option_map (λ t. t.now) value.entry) s → ⊥)
        (IsSeed (option_map (λ t. t.now) value.entry)) }
{
    let Some(text) = value else {
        return Some(None);
    };
    let Some(seed) = number(text.as_bytes(), 0, u64::MAX) else {
        return None;
    };
    Some(Some(seed))
}

/// The grid of a value.
fn grid_of(text: &str) -> Result<Origins, WordsFault>
    ensures ok { IfOk result (IsSource None (Some text.now)) }
    ensures usage { IsErrOf result fault.Usage → (s : Origins) → IsSource None (Some text.now) s → ⊥ }
{
    match number(text.as_bytes(), 1, 60) {
        Some(n) => Ok(Origins::Grid(n as u32)),
        None => Err(WordsFault::Usage),
    }
}

/// The file with this path.
fn file_of(alloc: Global, path: &str) -> Result<Origins, WordsFault>
    ensures ok { IfOk result (IsSource (Some path.now) None) }
    ensures usage { result ≢ Err fault.Usage }
{
    match Text::of(alloc, path) {
        Ok(path) => Ok(Origins::File(path)),
        Err(_) => Err(WordsFault::Memory),
    }
}

/// The problem of a file or of a grid: one of them is given, and not both.
fn source_of(alloc: Global, file: Option<&str>, grid: Option<&str>) -> Result<Origins, WordsFault>
    ensures ok { IfOk result (IsSource (option_map (λ t. t.now) file.entry) (option_map (λ t. t.now) grid.entry)) }
    ensures usage { IsErrOf result fault.Usage → (s : Origins)
        → IsSource (option_map (λ t. t.now) file.entry) (option_map (λ t. t.now) grid.entry) s → ⊥ }
{
    match (file, grid) {
        (Some(path), None) => file_of(alloc, path),
        (None, Some(text)) => grid_of(text),
        _ => Err(WordsFault::Usage),
    }
}

/// What the values ask for.
fn asked(alloc: Global, chosen: &Chosen) -> Result<Options, WordsFault>
    ensures ok { IfOk result (Asks (values_in chosen.now)) }
    ensures usage { IsErrOf result fault.Usage → (o : Options) → Asks (values_in chosen.now) o → ⊥ }
{
    let Some(peers) = count_of(chosen.peers, 1, 1, 64) else {
        return Err(WordsFault::Usage);
    };
    let Some(steps) = count_of(chosen.steps, 200_000, 1, 250_000) else {
        return Err(WordsFault::Usage);
    };
    let Some(policy) = policy_of(chosen.allocate) else {
        return Err(WordsFault::Usage);
    };
    let Some(schedule) = seed_of(chosen.schedule) else {
        return Err(WordsFault::Usage);
    };
    let source = match source_of(alloc, chosen.file, chosen.grid) {
        Ok(source) => source,
        Err(fault) => return Err(fault),
    };
    Ok(Options {
        peers: peers as u16,
        steps,
        policy,
        schedule,
        source,
    })
}

/// Reads the words behind the program's name. `Usage` is answered exactly where they aren't in the grammar.
pub fn read_words(alloc: Global, words: &[Text]) -> Result<Options, WordsFault>
    ensures ok { IfOk result (Spell words.now) }
    ensures usage { IsErrOf result fault.Usage → (o : Options) → Spell words.now o → ⊥ }
{
    let Ok(lent) = lent(alloc, words) else {
        return Err(WordsFault::Memory);
    };
    match matched(alloc, lent.as_slice()) {
        Ok(matches) => asked(
            alloc,
            &Chosen {
                peers: matches.get_str("peers"),
                steps: matches.get_str("steps"),
                allocate: matches.get_str("allocate"),
                schedule: matches.get_str("schedule"),
                grid: matches.get_str("grid"),
                file: matches.get_str("file"),
            },
        ),
        Err(error) => match error.kind() {
            ErrorKind::OutOfMemory => Err(WordsFault::Memory),
            _ => Err(WordsFault::Usage),
        },
    }
}
