// Looking through the rows of a plan.
ghost use Rattle.std.specs.Prelude.{◌≡◌};
ghost use Rattle.rules.specs.Rules.{place_of, clashes};

use tasks::task::Row;

// Where the task with this id stands.
pub fn place_of(rows: &[Row], id: u16) -> Option<usize>
    ensures { result ≡ place_of id rows.now }
{
    rows.iter().position(|row| row.id == id)
}

// Another task of the row's core has its rank.
pub fn has_clash(rows: &[Row], new: Row) -> bool
    ensures { result ≡ clashes new rows.now }
{
    rows.iter().any(|row| row.core == new.core && row.rank == new.rank && row.id != new.id)
}
