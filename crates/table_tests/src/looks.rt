// Looks at words that no step of these callers may change. The must-fail edits turn them into stores.
ghost use Rattle.std.specs.Prelude.{◌≡◌};
ghost use Rattle.set_model.specs.declared.names.AllocatorName.TheVariants.{Bump as BumpName, Once};
ghost use Rattle.record_table.specs.Handles.{setup_of, IsPassOf, IsSamePass};

use crate::types::{ListPass, ListTable};
use record_memory::{DRAWN, cursor, shelf};

/// Loads the first shelf of the pool.
pub fn look_at_shelf(table: &ListTable, pass: &mut ListPass) -> u64
    requires { IsPassOf table.now pass.old }
    ensures { IsSamePass pass.old pass.new }
{
    table.load_control(pass, shelf(0))
}

/// Loads the cursor of the one caller of a table whose allocator uses none.
pub fn look_at_cursor(table: &ListTable, pass: &mut ListPass) -> u64
    requires pass { IsPassOf table.now pass.old }
    requires allocator { (setup_of table.now).allocator ≡ BumpName }
    requires callers { (setup_of table.now).callers ≡ 1 }
    ensures { IsSamePass pass.old pass.new }
{
    table.load_control(pass, cursor(1, 0))
}

/// Loads the word that counts the records drawn, which stays at the number of roots where the allocator
/// draws from ranges.
pub fn look_at_drawn(table: &ListTable, pass: &mut ListPass) -> u64
    requires pass { IsPassOf table.now pass.old }
    requires allocator { (setup_of table.now).allocator ≡ Once }
    ensures { IsSamePass pass.old pass.new }
{
    table.load_control(pass, DRAWN)
}
