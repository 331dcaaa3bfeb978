//! Columns turned into rows.
ghost use Rattle.std.specs.Prelude.{◌≡◌, [], length, All, IfOk, OnOk};
ghost use Rattle.strm_run.specs.Inside.Table.{IsAdded, IsTransposed};

use std::alloc::Global;
use strm_msg::NoMem;

/// Empty rows, `rows` of them. Fails only when memory runs out.
pub(crate) fn empty_rows<T: Drop>(alloc: Global, rows: usize) -> Result<Vec<Vec<T>>, NoMem>
    ensures many { IfOk result (λ all. length all.items ≡ rows) }
    ensures empty { IfOk result (λ all. All (λ row. row.items ≡ []) all.items) }
{
    let mut all = Vec::new(alloc);
    for _ in 0..rows {
        all.push(Vec::new(alloc))?;
    }
    Ok(all)
}

/// Adds one element to each row. Fails only when memory runs out.
fn add<T: Drop>(rows: &mut Vec<Vec<T>>, column: Vec<T>) -> Result<(), NoMem>
    requires { length column.items ≡ length rows.old.items }
    ensures { OnOk result (IsAdded rows.old.items column.items rows.new.items) }
{
    let mut at: usize = 0;
    for x in column {
        rows[at].push(x)?;
        at += 1;
    }
    Ok(())
}

/// The rows of columns that all have the same length. Fails only when memory runs out.
pub(crate) fn transposed<T: Drop>(
    alloc: Global,
    columns: Vec<Vec<T>>,
    rows: usize,
) -> Result<Vec<Vec<T>>, NoMem>
    requires { All (λ column. length column.items ≡ rows) columns.items }
    ensures { IfOk result (λ all. IsTransposed columns.items rows all.items) }
{
    let mut all = empty_rows(alloc, rows)?;
    for column in columns {
        let Ok(()) = add(&mut all, column) else {
            return Err(NoMem);
        };
    }
    Ok(all)
}
