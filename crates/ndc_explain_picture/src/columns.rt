//! The columns of a picture in characters: one for each branch that goes on.
ghost use Rattle.std.specs.Prelude.{◌≡◌, ◌<◌, is_some, length, IfSome, OnOk};
ghost use Rattle.ndc_explain_picture.specs.Graph.{column_from, column_of, columns_behind, empty_from, is_column, next_of, put, with_column};

use ndc_event::{BatchKey, OutOfMemory};
use ndc_explain::Summary;

/// Whether a column goes on with this batch.
pub(crate) fn is_column(key: BatchKey, column: Option<BatchKey>) -> bool
    ensures { result ≡ is_column key column }
{
    match column {
        None => false,
        Some(waited) => key == waited,
    }
}

/// The place of the column that goes on with this batch.
fn column_of(key: BatchKey, columns: &[Option<BatchKey>]) -> Option<usize>
    ensures place { result ≡ column_of key columns.now }
    ensures within { IfSome result (λ place. place < length columns.now) }
{
    for place in 0..columns.len() {
        if is_column(key, columns[place]) {
            return Some(place);
        }
    }
    None
}

/// The place of the first empty column.
fn empty_of(columns: &[Option<BatchKey>]) -> Option<usize>
    ensures place { result ≡ empty_from 0 columns.now }
    ensures within { IfSome result (λ place. place < length columns.now) }
{
    for place in 0..columns.len() {
        if columns[place].is_none() {
            return Some(place);
        }
    }
    None
}

/// Whether a column goes on with this batch.
pub(crate) fn has_column(key: BatchKey, columns: &[Option<BatchKey>]) -> bool
    ensures { result ≡ is_some (column_of key columns.now) }
{
    column_of(key, columns).is_some()
}

/// The column goes to its place, or last.
fn put(
    columns: &mut Vec<Option<BatchKey>>,
    place: Option<usize>,
    column: Option<BatchKey>,
) -> Result<(), OutOfMemory>
    requires { IfSome place (λ place. place < length columns.old.items) }
    ensures { OnOk result (columns.new.items ≡ put place column columns.old.items) }
{
    match place {
        None => {
            columns.push(column)?;
        }
        Some(place) => {
            columns[place] = column;
        }
    }
    Ok(())
}

/// Makes a column for this batch, where there is none.
pub(crate) fn widen(columns: &mut Vec<Option<BatchKey>>, key: BatchKey) -> Result<(), OutOfMemory>
    ensures { OnOk result (columns.new.items ≡ with_column key columns.old.items) }
{
    if has_column(key, columns.as_slice()) {
        Ok(())
    } else {
        let place = empty_of(columns.as_slice());
        put(columns, place, Some(key))
    }
}

/// The batch with which a column goes on: the parent, unless another column goes on with it.
fn next_of(parent: Option<BatchKey>, columns: &[Option<BatchKey>]) -> Option<BatchKey>
    ensures { result ≡ next_of parent columns.now }
{
    match parent {
        None => None,
        Some(parent) => {
            if has_column(parent, columns) {
                None
            } else {
                Some(parent)
            }
        }
    }
}

/// Goes on after a block.
pub(crate) fn go_behind(
    columns: &mut Vec<Option<BatchKey>>,
    summary: Summary,
) -> Result<(), OutOfMemory>
    ensures { OnOk result (columns.new.items ≡ columns_behind summary columns.old.items) }
{
    let place = column_of(summary.last, columns.as_slice());
    let next = next_of(summary.parent, columns.as_slice());
    put(columns, place, next)
}
