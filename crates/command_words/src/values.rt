// The values that pairs of words give.
ghost use Rattle.std.specs.Prelude.{◌≡◌, ◌↔◌, ℕ, ◌≤◌, ◌<◌, ◌^◌, ◌≢◌, Bool, false, Some, Option, IfSome, MatchOption, codes};
ghost use Rattle.std.specs.Fmt.{decimal};
ghost use Rattle.set_model.specs.declared.names.AllocatorName.{AllocatorName};
ghost use Rattle.set_model.specs.declared.names.AllocatorName.TheVariants.{Bump};
ghost use Rattle.set_model.specs.declared.names.ReclaimerName.{ReclaimerName};
ghost use Rattle.set_model.specs.declared.names.SetName.{SetName};
ghost use Rattle.command_words.specs.Options.{Gives, GivesOr, HasNamesOnce};
ghost use Rattle.command_words.specs.Commands.{AreRecords};
ghost use Rattle.text_lines.specs.Names.{reclaimer_word, set_word};
ghost use Rattle.command_words.specs.Words.{allocator_word, answer_word, texts_of};

use crate::options::value_of;
use set_model::{AllocatorName, ReclaimerName, SetName};
use text_lines::{Number, read_number};

/// The set of this word.
fn set_named(word: &str) -> Option<SetName>
    ensures { MatchOption result ((set : SetName) → word.now ≢ set_word set) (λ set. word.now ≡ set_word set) }
{
    match word {
        "plain" => Some(SetName::Plain),
        "michael" => Some(SetName::Michael),
        "lazy" => Some(SetName::Lazy),
        _ => None,
    }
}

/// The reclaimer of this word.
fn reclaimer_named(word: &str) -> Option<ReclaimerName>
    ensures { MatchOption result ((reclaimer : ReclaimerName) → word.now ≢ reclaimer_word reclaimer)
        (λ reclaimer. word.now ≡ reclaimer_word reclaimer) }
{
    match word {
        "none" => Some(ReclaimerName::Nothing),
        "debra" => Some(ReclaimerName::Debra),
        "hazard" => Some(ReclaimerName::Hazard),
        "2geibr" => Some(ReclaimerName::Ibr),
        _ => None,
    }
}

/// The allocator of this word.
fn allocator_named(word: &str) -> Option<AllocatorName>
    ensures { MatchOption result ((allocator : AllocatorName) → word.now ≢ allocator_word allocator)
        (λ allocator. word.now ≡ allocator_word allocator) }
{
    match word {
        "bump" => Some(AllocatorName::Bump),
        "once" => Some(AllocatorName::Once),
        _ => None,
    }
}

/// The answer of this word.
fn answer_named(word: &str) -> Option<bool>
    ensures { MatchOption result ((answer : Bool) → word.now ≢ answer_word answer) (λ answer. word.now ≡ answer_word answer) }
{
    match word {
        "yes" => Some(true),
        "no" => Some(false),
        _ => None,
    }
}

/// The number of this word, from `least` to `most`.
fn number_named(word: &str, least: u64, most: u64) -> Option<u64>
    ensures { MatchOption result ((n : ℕ) → least ≤ n → n ≤ most → word.now ≢ decimal n)
        (λ n. (word.now ≡ decimal n) × (least ≤ n) × (n ≤ most)) }
{
    match read_number(word.as_bytes(), most) {
        Number::Value(value) => {
            if value < least {
                return None;
            }
            Some(value)
        }
        Number::TooLarge | Number::NoNumber => None,
    }
}

/// The set that the pairs name.
pub fn set_of(words: &[String]) -> Option<SetName>
    requires { HasNamesOnce (texts_of words.now) }
    ensures { MatchOption result ((set : SetName) → ¬ (Gives (texts_of words.now) (codes "--set") (set_word set)))
        (λ set. Gives (texts_of words.now) (codes "--set") (set_word set)) }
{
    match value_of(words, "--set") {
        Some(word) => set_named(word),
        None => None,
    }
}

/// The reclaimer that the pairs name.
pub fn reclaimer_of(words: &[String]) -> Option<ReclaimerName>
    requires { HasNamesOnce (texts_of words.now) }
    ensures { MatchOption result
        ((reclaimer : ReclaimerName) → ¬ (Gives (texts_of words.now) (codes "--reclaimer") (reclaimer_word reclaimer)))
        (λ reclaimer. Gives (texts_of words.now) (codes "--reclaimer") (reclaimer_word reclaimer)) }
{
    match value_of(words, "--reclaimer") {
        Some(word) => reclaimer_named(word),
        None => None,
    }
}

/// The allocator that the pairs name, or `Bump` where they name none.
pub fn allocator_of(words: &[String]) -> Option<AllocatorName>
    requires { HasNamesOnce (texts_of words.now) }
    ensures { MatchOption result
        ((allocator : AllocatorName) → ¬ (GivesOr (texts_of words.now) (codes "--allocator") allocator_word Bump allocator))
        (λ allocator. GivesOr (texts_of words.now) (codes "--allocator") allocator_word Bump allocator) }
{
    match value_of(words, "--allocator") {
        Some(word) => allocator_named(word),
        None => Some(AllocatorName::Bump),
    }
}

/// Whether the pairs say that callers share their keys, `no` where they say nothing.
pub fn shared_of(words: &[String]) -> Option<bool>
    requires { HasNamesOnce (texts_of words.now) }
    ensures { MatchOption result
        ((shared : Bool) → ¬ (GivesOr (texts_of words.now) (codes "--shared") answer_word false shared))
        (λ shared. GivesOr (texts_of words.now) (codes "--shared") answer_word false shared) }
{
    match value_of(words, "--shared") {
        Some(word) => answer_named(word),
        None => Some(false),
    }
}

/// The number that the pairs give to this name, from `least` to `most`.
pub fn number_of(words: &[String], name: &str, least: u64, most: u64) -> Option<u64>
    requires { HasNamesOnce (texts_of words.now) }
    ensures { MatchOption result
        ((n : ℕ) → least ≤ n → n ≤ most → ¬ (Gives (texts_of words.now) name.now (decimal n)))
        (λ n. Gives (texts_of words.now) name.now (decimal n) × (least ≤ n) × (n ≤ most)) }
{
    match value_of(words, name) {
        Some(word) => number_named(word, least, most),
        None => None,
    }
}

/// The number of buckets that the pairs name, 1 to 4,096, or 64 where they name none.
pub fn buckets_of(words: &[String]) -> Option<u32>
    requires { HasNamesOnce (texts_of words.now) }
    ensures { MatchOption result
        ((n : ℕ) → 1 ≤ n → n ≤ 4096 → ¬ (GivesOr (texts_of words.now) (codes "--buckets") decimal 64 n))
        (λ n. GivesOr (texts_of words.now) (codes "--buckets") decimal 64 n × (1 ≤ n) × (n ≤ 4096)) }
{
    match value_of(words, "--buckets") {
        Some(word) => match number_named(word, 1, 4096) {
            Some(buckets) => Some(buckets as u32),
            None => None,
        },
        None => Some(64),
    }
}

/// The number of records that the pairs name, 1 to 1,048,575, if they name one. None of it where
/// they name another.
pub fn records_of(words: &[String]) -> Option<Option<u32>>
    requires { HasNamesOnce (texts_of words.now) }
    ensures { MatchOption result ((records : Option ℕ) → ¬ (AreRecords (texts_of words.now) records))
        (λ records. AreRecords (texts_of words.now) records) }
{
    match value_of(words, "--records") {
        Some(word) => match number_named(word, 1, 1_048_575) {
            Some(records) => Some(Some(records as u32)),
            None => None,
        },
        None => Some(None),
    }
}
