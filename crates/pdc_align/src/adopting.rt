//! What the adoption of columns makes of a table.
ghost use Rattle.std.specs.Prelude.{◌≡◌, ◌<◌, ℕ};
ghost use Rattle.std.specs.List.{All};
ghost use Rattle.pdc_table.specs.Content.{HasSizesOf, IsContent};
ghost use Rattle.pdc_align.specs.State.{after_adoption, after_adoptions};

use pdc_table::Table;

/// Adopts the columns in the table, one after the other: with one lane the column's stream is waited for, and what was taken of it
/// is dropped; with two the cells of the column are.
pub fn adopt_in<T: Table>(table: &mut T, lanes: usize, columns: &[usize])
    requires lanes { lanes ≡ (T.content table.old).lanes }
    requires columns { All (λ (column : ℕ). column < (T.content table.old).columns) columns.now }
    requires well_formed { IsContent (T.content table.old) }
    ensures closed { (T.content table.new).closed ≡ (T.content table.old).closed }
    ensures last { (T.content table.new).last ≡ (T.content table.old).last }
    ensures content { T.content table.new ≡ after_adoptions (T.content table.old) columns.now }
    ensures sizes { HasSizesOf (T.content table.old) (T.content table.new) }
    ensures memory { T.memory table.new ≡ T.memory table.old }
    ensures disagreements { T.disagreements table.new ≡ T.disagreements table.old }
    ensures well_formed { IsContent (T.content table.new) }
{
    for column in columns {
        adopt_one(table, lanes, *column);
    }
}

/// Adopts one column in the table.
fn adopt_one<T: Table>(table: &mut T, lanes: usize, column: usize)
    requires lanes { lanes ≡ (T.content table.old).lanes }
    requires column { column < (T.content table.old).columns }
    requires well_formed { IsContent (T.content table.old) }
    ensures closed { (T.content table.new).closed ≡ (T.content table.old).closed }
    ensures last { (T.content table.new).last ≡ (T.content table.old).last }
    ensures content { T.content table.new ≡ after_adoption (T.content table.old) column }
    ensures sizes { HasSizesOf (T.content table.old) (T.content table.new) }
    ensures memory { T.memory table.new ≡ T.memory table.old }
    ensures disagreements { T.disagreements table.new ≡ T.disagreements table.old }
    ensures well_formed { IsContent (T.content table.new) }
{
    if lanes == 1 {
        table.require(column, true);
        table.drop_stream(column);
    } else {
        table.drop_column(column);
    }
}
