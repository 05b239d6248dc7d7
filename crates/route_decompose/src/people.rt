//! People by row and moment.
ghost use Rattle.std.specs.Prelude.{◌≡◌, ℕ, ◌<◌, ◌≤◌, IfNone, IfSome};
ghost use Rattle.plan_layout.specs.Tables.{people_at};
ghost use Rattle.route_decompose.specs.Places.{IsLess};

use tables::Table;

/// The first moment at which a row has somebody.
pub fn first_in(table: &Table<u32>, row: u32) -> Option<u16>
    requires { row < table.now.rows }
    ensures some { IfSome result (λ t. (t ≤ table.now.last) × (0 < people_at table.now row t)) }
    ensures none { IfNone result ((t : ℕ) → people_at table.now row t ≡ 0) }
{
    for moment in 0..u32::from(table.last()) + 1 {
        if table.get(row, moment as u16) > 0 {
            return Some(moment as u16);
        }
    }
    None
}

/// Takes people off the number of a row at a moment.
pub fn take(table: &mut Table<u32>, row: u32, moment: u16, people: u32)
    requires row_in { row < table.old.rows }
    requires moment_in { moment ≤ table.old.last }
    requires enough { people ≤ people_at table.old row moment }
    ensures { IsLess table.old table.new row moment people }
{
    let rest = table.get(row, moment) - people;
    table.put(row, moment, rest);
}
