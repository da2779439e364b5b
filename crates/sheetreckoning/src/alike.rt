// Whether a sheet is as its model says: every row, and every mark.
use crate::model::Model;
use naive::recurrence::Kind;
use sheet::marks::Mark;
use table::row::Row;

// Whether a row is the model's among the first 64, or as it was lent behind them.
fn is_kept(model: &Model, lent: &[Row], k: usize, row: &Row) -> bool {
    match lent.get(k) {
        Some(old) if k >= 64 => row == old,
        _ => *row == model.row(k),
    }
}

pub(crate) fn same_rows(rows: &[Row], model: &Model, lent: &[Row]) -> bool {
    rows.len() == lent.len()
        && rows
            .iter()
            .enumerate()
            .all(|(k, row)| is_kept(model, lent, k, row))
}

// The mark of a core that stands by a test, or by none.
fn mark_of(stand: Option<Kind>) -> Mark {
    match stand {
        None => Mark::Loose,
        Some(Kind::Composable) => Mark::OwnCore,
        Some(Kind::Deadline) => Mark::Wide,
    }
}

pub(crate) fn same_marks(marks: &[Mark; 8], model: &Model) -> bool {
    marks.iter().enumerate().all(|(core, mark)| {
        let stand = model.stand(core);
        *mark == mark_of(stand) && mark.is_standing() == stand.is_some()
    })
}
