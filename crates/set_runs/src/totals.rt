// The counts of all callers together, with what lies on shelves.
ghost use Rattle.std.specs.Prelude.{◌≡◌, ℕ, ◌+◌, ◌<◌, ◌^◌, ◌++◌, ◌∷◌, [], List, All, map};
ghost use Rattle.record_memory.specs.declared.books.Book.{Book};
ghost use Rattle.manager.specs.Counted.{shown, AreCountsOf};
ghost use Rattle.set_runs.specs.Totals.{AreTotalsOf, chain_in, on_shelves, with_free};

use crate::players::Player;
use record_memory::shelf;
use record_table::Closed;
use set_api::ConcurrentSet;
use set_model::Counts;

/// The counts where no caller moved a record.
pub const NO_COUNTS: Counts = Counts {
    drawn: 0,
    reused: 0,
    retired: 0,
    freed: 0,
    limbo: 0,
    free: 0,
    spare: 0,
    spent: 0,
};

/// How many records a chain on a shelf has.
const CHAIN: u64 = 32;

// Two counts together, each of which stands still at its type's end.
fn sum_of(a: u64, b: u64) -> u64
    ensures { (m n : ℕ) → a ≡ shown m → b ≡ shown n → result ≡ shown (m + n) }
{
    a.saturating_add(b)
}

// These counts, and those of one caller more.
fn with_counts(all: Counts, own: Counts) -> Counts
    ensures { (books : List Book) (book : Book) → AreTotalsOf all books → AreCountsOf own book → AreTotalsOf result (books ++ book ∷ []) }
{
    Counts {
        drawn: sum_of(all.drawn, own.drawn),
        reused: sum_of(all.reused, own.reused),
        retired: sum_of(all.retired, own.retired),
        freed: sum_of(all.freed, own.freed),
        limbo: sum_of(all.limbo, own.limbo),
        free: sum_of(all.free, own.free),
        spare: sum_of(all.spare, own.spare),
        spent: sum_of(all.spent, own.spent),
    }
}

/// The counts of all callers together. Each stands still at 2^64 - 1.
pub fn total_counts<S: ConcurrentSet>(set: &S, players: &[Player<S::Caller>]) -> Counts
    requires { All (λ player. S.has set.now player.caller) players.now }
    ensures { AreTotalsOf result (map (λ player. (S.view player.caller).own) players.now) }
{
    let mut all = NO_COUNTS;
    for player in players {
        all = with_counts(all, set.counts(&player.caller));
    }
    all
}

// How many records a shelf with this word has.
fn chain_of(word: u64) -> u64
    ensures { result ≡ chain_in word }
{
    if word == 0 { 0 } else { CHAIN }
}

// How many records the shelves of a closed table have.
fn count_shelved(closed: &Closed) -> u64
    ensures { result ≡ shown (on_shelves closed.now) }
{
    let words = closed.words();
    let mut found = 0;
    for k in 0..16 {
        found = sum_of(found, chain_of(words[shelf(k) as usize]));
    }
    found
}

/// These counts, with the records on the shelves of a closed table among the free ones, whose count stands still
/// at 2^64 - 1.
pub fn with_shelves(counts: Counts, closed: &Closed) -> Counts
    ensures { result ≡ with_free counts (on_shelves closed.now) }
{
    Counts {
        free: sum_of(counts.free, count_shelved(closed)),
        ..counts
    }
}
