// What is played, and on which records.
ghost use Rattle.bench_core.specs.Settings.{play_words};
ghost use Rattle.std.specs.Prelude.{◌≡◌};

use command_words::PlayWords;
use lawful_pairs::Pair;
use set_model::AllocatorName;

/// Which set is played under which reclaimer, and the records that it has. `AreSettings` of
/// `specs/Settings.antt` says which settings lawful words give.
#[derive(Clone, Copy, Debug, PartialEq, Eq)]
pub struct Settings {
    /// The set, and the reclaimer under which it is played.
    pub pair: Pair,
    /// The allocator that draws its records.
    pub allocator: AllocatorName,
    /// How many buckets a hash table has, 1 to 4,096.
    pub buckets: u32,
    /// How many records there are, 1 to 1,048,575, where that was chosen.
    pub chosen: Option<u32>,
}

/// What words would choose for these settings.
pub fn play_words(settings: Settings) -> PlayWords
    ensures { result ≡ play_words settings }
{
    PlayWords {
        set: settings.pair.set,
        reclaimer: settings.pair.reclaimer,
        allocator: settings.allocator,
        buckets: settings.buckets,
        records: settings.chosen,
    }
}
