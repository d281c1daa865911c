// Words in pairs, a name and a value.
ghost use Rattle.std.specs.Prelude.{◌≡◌, ◌↔◌, IsTrue, MatchOption};
ghost use Rattle.std.specs.String.{string_bytes};
ghost use Rattle.command_words.specs.Options.{ArePairs, Gives, IsAbsent, IsOneOf};
ghost use Rattle.command_words.specs.Words.{names_of, texts_of};

use crate::command::Mode;

/// Whether the word is this text.
pub fn is(word: &String, text: &str) -> bool
    ensures { IsTrue result ↔ (string_bytes word.now ≡ text.now) }
{
    word.as_str() == text
}

/// The value of the first pair with this name.
pub fn value_of<'a>(words: &'a [String], name: &str) -> Option<&'a str>
    ensures { MatchOption result (IsAbsent (texts_of words.now) name.now)
        (λ value. Gives (texts_of words.now) name.now value.now) }
{
    let mut rest = words;
    while let [given, value, more @ ..] = rest {
        if is(given, name) {
            return Some(value.as_str());
        }
        rest = more;
    }
    None
}

/// Whether no pair has this name.
fn is_absent(words: &[String], name: &str) -> bool
    ensures { IsTrue result ↔ IsAbsent (texts_of words.now) name.now }
{
    value_of(words, name).is_none()
}

/// Whether the name may stand behind this mode.
fn is_name_of(mode: Mode, name: &str) -> bool
    ensures { IsTrue result ↔ IsOneOf (names_of mode) name.now }
{
    let of_parts = (name == "--set") | (name == "--reclaimer");
    let of_table = (name == "--allocator") | (name == "--buckets") | (name == "--records");
    let of_size = (name == "--callers") | (name == "--calls");
    let of_draws = (name == "--keys") | (name == "--seed");
    match mode {
        Mode::Play => of_parts | of_table,
        Mode::Check => false,
        Mode::Generate => of_size | of_draws | (name == "--shared"),
        Mode::Trial => of_parts | of_size | of_draws,
    }
}

/// Whether the words behind the mode are pairs, each with a name that may stand there, and none of
/// these comes twice.
pub fn are_pairs(mode: Mode, words: &[String]) -> bool
    ensures { IsTrue result ↔ ArePairs (names_of mode) (texts_of words.now) }
{
    let mut rest = words;
    while let [name, _, more @ ..] = rest {
        if !is_name_of(mode, name.as_str()) || !is_absent(more, name.as_str()) {
            return false;
        }
        rest = more;
    }
    rest.is_empty()
}
