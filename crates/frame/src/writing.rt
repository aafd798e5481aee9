// The least value of a column, and the width of the differences from it.
ghost use Rattle.frame.specs.Fit.{Fitted};

use bitpack::width::Width;

// The least value, and the width of the largest difference from it.
#[derive(Clone, Copy)]
pub struct Fit {
    pub least: i64,
    pub width: Width,
}

// One walk finds the least and the greatest value, and the largest difference is that of the greatest.
pub(crate) fn fit_of(column: &[i64]) -> Fit
    ensures { Fitted column.now result }
{
    let Some(&first) = column.first() else {
        return Fit {
            least: 0,
            width: Width::of(0),
        };
    };
    let mut least = first;
    let mut greatest = first;
    for &value in column {
        least = number::lesser(least, value);
        greatest = number::greater(greatest, value);
    }
    Fit {
        least,
        width: Width::of(number::gap(least, greatest)),
    }
}
