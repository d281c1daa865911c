// From words to commands.
ghost use Rattle.std.specs.Prelude.{◌≡◌, ◌≢◌, ◌*◌, ◌≤◌, ◌↔◌, false, Some, IfSome, IsTrue, MatchOption};
ghost use Rattle.command_words.specs.Commands.{Chooses, IsCommand, IsKnown, IsKnownPair, IsMade, IsPlay, IsTrial, mode_of};
ghost use Rattle.command_words.specs.Options.{HasNamesOnce};
ghost use Rattle.command_words.specs.Words.{mode_word, texts_of};
ghost use Rattle.command_words.specs.declared.command.Command.{Command};
ghost use Rattle.command_words.specs.declared.command.Mode.{Mode};
ghost use Rattle.command_words.specs.declared.command.PlayWords.{PlayWords};
ghost use Rattle.command_words.specs.declared.command.TrialWords.{TrialWords};
ghost use Rattle.command_words.specs.declared.command.Workloads.{Workloads};

use crate::command::{Command, Mode, PlayWords, TrialWords, Workloads};
use crate::options::are_pairs;
use crate::values::{
    allocator_of, buckets_of, number_of, reclaimer_of, records_of, set_of, shared_of,
};
use lawful_pairs::lawful;
use set_model::{AllocatorName, ReclaimerName, SetName};

/// Whether a set with so many buckets has a record for the root of each.
fn roots_fit(set: SetName, buckets: u32, records: Option<u32>) -> bool
    ensures { IsTrue result ↔ (set ≡ SetName.Michael → IfSome records (λ n. buckets ≤ n)) }
{
    match (set, records) {
        (SetName::Michael, Some(records)) => buckets <= records,
        _ => true,
    }
}

/// What the pairs of `play` choose.
fn play_of(words: &[String]) -> Option<PlayWords>
    requires { HasNamesOnce (texts_of words.now) }
    ensures { MatchOption result ((chosen : PlayWords) → ¬ (IsPlay (texts_of words.now) chosen))
        (λ chosen. IsPlay (texts_of words.now) chosen) }
{
    let set = set_of(words)?;
    let reclaimer = reclaimer_of(words)?;
    let allocator = allocator_of(words)?;
    let buckets = buckets_of(words)?;
    let records = records_of(words)?;
    if !roots_fit(set, buckets, records) {
        return None;
    }
    Some(PlayWords {
        set,
        reclaimer,
        allocator,
        buckets,
        records,
    })
}

/// What the pairs of `generate` and `trial` choose of a workload.
fn workload_of(words: &[String], shared: bool) -> Option<Workloads>
    requires { HasNamesOnce (texts_of words.now) }
    ensures { MatchOption result
        ((chosen : Workloads) → chosen.shared ≡ shared → ¬ (IsMade (texts_of words.now) chosen))
        (λ chosen. IsMade (texts_of words.now) chosen × (chosen.shared ≡ shared)) }
{
    let callers = number_of(words, "--callers", 1, 64)? as u32;
    let calls = number_of(words, "--calls", 0, u64::from(1_000_000 / callers))? as u32;
    let keys = number_of(words, "--keys", 1, 268_435_456)? as u32;
    let seed = number_of(words, "--seed", 0, u64::MAX)?;
    Some(Workloads {
        callers,
        calls,
        keys,
        seed,
        shared,
    })
}

/// What the pairs of `trial` choose.
fn trial_of(words: &[String]) -> Option<TrialWords>
    requires { HasNamesOnce (texts_of words.now) }
    ensures { MatchOption result ((chosen : TrialWords) → ¬ (IsTrial (texts_of words.now) chosen))
        (λ chosen. IsTrial (texts_of words.now) chosen) }
{
    Some(TrialWords {
        set: set_of(words)?,
        reclaimer: reclaimer_of(words)?,
        workload: workload_of(words, false)?,
    })
}

/// The mode of this word.
fn mode_named(word: &str) -> Option<Mode>
    ensures { MatchOption result ((mode : Mode) → word.now ≢ mode_word mode) (λ mode. word.now ≡ mode_word mode) }
{
    match word {
        "play" => Some(Mode::Play),
        "check" => Some(Mode::Check),
        "generate" => Some(Mode::Generate),
        "trial" => Some(Mode::Trial),
        _ => None,
    }
}

/// What the pairs behind this mode choose.
fn chosen_of(mode: Mode, words: &[String]) -> Option<Command>
    requires { HasNamesOnce (texts_of words.now) }
    ensures { MatchOption result
        ((command : Command) → mode_of command ≡ mode → ¬ (Chooses (texts_of words.now) command))
        (λ command. (mode_of command ≡ mode) × Chooses (texts_of words.now) command) }
{
    match mode {
        Mode::Play => Some(Command::Play(play_of(words)?)),
        Mode::Check => Some(Command::Check),
        Mode::Generate => Some(Command::Generate(workload_of(words, shared_of(words)?)?)),
        Mode::Trial => Some(Command::Trial(trial_of(words)?)),
    }
}

/// Whether a pair can be played today, or isn't lawful.
fn is_known_pair(set: SetName, reclaimer: ReclaimerName) -> bool
    ensures { IsTrue result ↔ IsKnownPair set reclaimer }
{
    match (set, reclaimer) {
        (SetName::Plain, ReclaimerName::Nothing) | (SetName::Michael, _) => true,
        _ => lawful(set, reclaimer).is_err(),
    }
}

/// Whether the command asks for nothing that isn't built yet.
fn is_known(command: Command) -> bool
    ensures { IsTrue result ↔ IsKnown command }
{
    match command {
        Command::Play(chosen) => {
            is_known_pair(chosen.set, chosen.reclaimer) && chosen.allocator == AllocatorName::Bump
        }
        Command::Check | Command::Generate(_) => true,
        Command::Trial(chosen) => is_known_pair(chosen.set, chosen.reclaimer),
    }
}

/// The command that the words name. None where they aren't lawful: the first word is no mode, the
/// others are no pairs of a name and a value, a name may not stand behind the mode or comes twice, a
/// name that the mode needs is missing, a value isn't one of its name's, or what they ask for isn't
/// built yet. It takes no memory.
pub fn read_command(words: &[String]) -> Option<Command>
    ensures found { IfSome result (IsCommand (texts_of words.now)) }
    ensures only { (command : Command) → IsCommand (texts_of words.now) command → result ≡ Some command }
{
    let [first, pairs @ ..] = words else {
        return None;
    };
    let mode = mode_named(first.as_str())?;
    if !are_pairs(mode, pairs) {
        return None;
    }
    let command = chosen_of(mode, pairs)?;
    if !is_known(command) {
        return None;
    }
    Some(command)
}
