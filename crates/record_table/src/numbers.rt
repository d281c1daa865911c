// The numbers of a table, and where its words lie.
ghost use Rattle.std.specs.Prelude.{◌≡◌, ◌<◌, ◌≤◌};
ghost use Rattle.record_memory.specs.declared.steps.Word.TheVariants.{Field};
ghost use Rattle.record_memory.specs.Memory.{address, size, word_at};
ghost use Rattle.record_table.specs.Handles.{setup_of};

use crate::table::Table;
use record_memory::field_of;
use record_rule::{Cover, Shape};
use row_words::Generation;

impl<S: Shape, R: Cover> Table<S, R> {
    /// How many records it has, the roots among them.
    pub fn records(&self) -> u32
        ensures { result ≡ (setup_of self.now).records }
    {
        self.setup.records
    }

    /// How many roots it has.
    pub fn roots(&self) -> u32
        ensures { result ≡ (setup_of self.now).roots }
    {
        self.setup.roots
    }

    /// How many callers it has, at most 64.
    pub fn callers(&self) -> u32
        ensures callers { result ≡ (setup_of self.now).callers }
        ensures few { result ≤ 64 }
    {
        self.setup.callers
    }

    /// The generation of a record that is handed out for the first time.
    pub fn first(&self) -> Generation
        ensures { result ≡ (setup_of self.now).first }
    {
        self.first
    }

    // Where word `field` of the record with this index lies.
    pub(crate) fn address_of(&self, index: u32, field: u8) -> usize
        requires index { (0 < index) × (index ≤ (setup_of self.now).records) }
        requires field { field < 8 }
        ensures place { result ≡ address (setup_of self.now).callers (Field index field) }
        ensures named { word_at (setup_of self.now).callers result ≡ Field index field }
        ensures within { result < size (setup_of self.now).callers (setup_of self.now).records }
    {
        field_of(self.setup.callers, index, field)
    }
}
