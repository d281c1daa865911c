// Drawing records and setting them aside.
ghost use Rattle.std.specs.Prelude.{◌≡◌};
ghost use Rattle.record_table.specs.Handles.{setup_of, IsPassOf, IsSamePass};

use crate::types::{ListPass, ListTable};
use alloc_api::{Allocator, NoRecord};
use row_words::Ref;

/// Draws a record by the table's allocator, hands it out with the birth 0 and sets it aside before `next`.
pub fn draw_aside<A: Allocator>(
    table: &ListTable,
    pass: &mut ListPass,
    next: Option<Ref>,
) -> Result<Ref, NoRecord>
    requires pass { IsPassOf table.now pass.old }
    requires allocator { (setup_of table.now).allocator ≡ A.NAME }
    ensures pass { IsSamePass pass.old pass.new }
{
    let drawn = A::draw(table, pass)?;
    let own = table.hand_out(pass, drawn, 0);
    Ok(table.set_aside(pass, own, next))
}
