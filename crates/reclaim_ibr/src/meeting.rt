// Which records the intervals meet whose ends a scan loaded.
ghost use Rattle.std.specs.Prelude.{◌≡◌, ◌≢◌, ◌≤◌, ◌↔◌, IsTrue};
ghost use Rattle.ibr_facts.specs.Keeping.{is_met};

use limbo_bags::Keeps;
use row_words::Ref;

// Whether the interval with these ends meets the life from `birth` to `stamp`. A lower end of 0 is a quiet caller's.
fn meets_one(lower: u64, upper: u64, birth: u64, stamp: u64) -> bool
    ensures { IsTrue result ↔ ((lower ≢ 0) × (lower ≤ stamp) × (birth ≤ upper)) }
{
    lower != 0 && lower <= stamp && birth <= upper
}

// Whether one of the intervals, of which each has its lower end and then its upper end here, meets the life from
// `birth` to `stamp`. Where an upper end is missing, the answer is yes.
fn meets(ends: &[u64], birth: u64, stamp: u64) -> bool
    ensures { result ≡ is_met ends.now birth stamp }
{
    let mut rest = ends;
    while let [lower, upper, more @ ..] = rest {
        if meets_one(*lower, *upper, birth, stamp) {
            return true;
        }
        rest = more;
    }
    !rest.is_empty()
}

// Keeps the records whose life one of these intervals meets.
#[derive(Drop)]
pub(crate) struct Met<'a> {
    pub(crate) ends: &'a [u64],
}

impl<'a> Keeps for Met<'a> {
    ghost use Rattle.ibr_facts.specs.Keeping.{is_met};

    ghost kept = { λ t r birth stamp. is_met t.ends.now birth stamp };

    fn keeps(&self, _r: Ref, birth: u64, stamp: u64) -> bool {
        meets(self.ends, birth, stamp)
    }
}
