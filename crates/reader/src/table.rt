// The rows of the features, put into a lent table once the features were judged.
ghost use Rattle.std.specs.Prelude.{◌≡◌, ◌*◌, ◌≤◌, length};
ghost use Rattle.rows.specs.Rows.{width, table as table_of};
ghost use Rattle.reading.specs.Calls.{then};
ghost use Rattle.reading.specs.FeatureRows.{rows_at, rows_read, AreRead};

use read_items::Cursor;
use rows::{Row, WIDTH, put_row};
use versions::Version;

// Puts a row into the table for each of the features, which were judged before: so none of their items is missing.
pub(crate) fn put_rows(
    start: Cursor,
    seal: &[u8],
    version: Version,
    count: usize,
    table: &mut [usize],
)
    requires there { AreRead (rows_at count version start.place seal.now) }
    requires room { width * count ≤ length table.old }
    ensures { table.new
        ≡ then (table_of (rows_read (rows_at count version start.place seal.now))) table.old }
{
    let end = WIDTH * count;
    let mut at = start.place;
    let mut to: usize = 0;
    // a loop of two places: the table's goes on by rows of one width, the seal's by features, each as long as it says
    while to < end {
        let here = Cursor { place: at };
        let Some((tag, next)) = here.byte(seal) else {
            return;
        };
        let Ok((size, value)) = next.feature_length(seal, version) else {
            return;
        };
        let row = Row {
            tag,
            start: at,
            place: value.place,
            size,
        };
        put_row(row, table, to);
        at = value.place + size;
        to += WIDTH;
    }
}
