// Which records the words that a scan loaded name.
use arrayvec::ArrayVec;
use limbo_bags::Keeps;
use row_words::{Ref, pack_ref};

// Keeps the records that one of these words names.
#[derive(Drop)]
pub(crate) struct Named<'a> {
    pub(crate) words: &'a ArrayVec<u64, 192>,
}

impl<'a> Keeps for Named<'a> {
    ghost use Rattle.hazard_facts.specs.Pointers.{is_named};

    ghost kept = { λ t r birth stamp. is_named r t.words.now.items };

    fn keeps(&self, r: Ref, _birth: u64, _stamp: u64) -> bool {
        self.words.contains(&pack_ref(Some(r)))
    }
}
