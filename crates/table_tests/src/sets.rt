// What no set can be.
ghost use Rattle.std.specs.Prelude.{◌≡◌, ℕ, true};
ghost use Rattle.set_model.specs.Keys.{contains};
ghost use Rattle.set_model.specs.Histories.{keys_of};
ghost use Rattle.record_memory.specs.declared.books.Setup.{Setup};
ghost use Rattle.record_rule.specs.Inputs.{ShapeInput, Trace};
ghost use Rattle.record_rule.specs.Walks.{HasRoots};
ghost use Rattle.record_rule.specs.Laws.{Given};

use record_table::Shape;

/// No set's facts hold of the same records under two histories that leave different keys. So none can be
/// made whose facts say nothing of the history.
pub fn no_set_ties_nothing<S: Shape>()
    ensures one { (setup : Setup) (x : ShapeInput) (g h : Trace) → HasRoots setup x.cells → Given S.facts setup x g → Given S.facts setup x h
        → (k : ℕ) → contains (keys_of g.updates) k ≡ true → contains (keys_of h.updates) k ≡ true }
    ensures none { ¬ ((setup : Setup) (x : ShapeInput) (h : Trace) → S.facts.told setup x h) }
{}
