// What the calls of a hash table do with spare records.
ghost use Rattle.record_memory.specs.declared.books.Setup.{Setup};
ghost use Rattle.set_api.specs.Drawing.{TakesSpareFirst};
ghost use Rattle.michael_hash.specs.Pieces.{MakesPiece};
ghost use Rattle.hash_runs.specs.HashRuns.{manner_of};

use reclaim_api::Scheme;

/// Shows, without effect, that a call of a hash table under `R` takes a spare record of its caller's before it draws one,
/// and draws one at most.
pub fn show_sparing<R: Scheme>()
    ensures { (setup : Setup) → TakesSpareFirst (MakesPiece (manner_of R.enters R.leaves R.bears R.reaches R.puts_away) setup) setup.records }
{}
