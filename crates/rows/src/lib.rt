// A row of a table of features (document 02, Ticket 10): how many numbers it has, and in what order they stand. A row is known by the
// place of its first number, and a walk over a table goes from place to place by WIDTH, so that no index is multiplied.
#![tactic(auto)]

ghost use Rattle.std.specs.Prelude.{◌≡◌, ◌*◌};
ghost use Rattle.std.specs.Iterator.{YieldsFirst, item_count};
ghost use Rattle.rows.specs.Rows.{width, found_at, rows_of, row_put};
ghost use Rattle.rows.specs.Left.{rows_left};

// A feature in a seal: its tag, where it starts, which is its tag's place, and its value's place and length. A writer goes by the
// tag and the value alone.
#[derive(Clone, Copy)]
pub struct Row {
    pub tag: usize,
    pub start: usize,
    pub place: usize,
    pub size: usize,
}

// How many numbers a row has.
pub const WIDTH: usize = 4;

// How many numbers are room for the rows of every seal: it has at most 255 features.
pub const MOST: usize = 255 * WIDTH;

// The row whose first number stands at a place; none where the table ends before all its numbers.
pub fn row_at(table: &[usize], at: usize) -> Option<Row>
    ensures { result ≡ found_at table.now at }
{
    let n = table.len();
    if n < WIDTH {
        return None;
    }
    if n - WIDTH < at {
        return None;
    }
    Some(Row {
        tag: table[at],
        start: table[at + 1],
        place: table[at + 2],
        size: table[at + 3],
    })
}

// The rows of a table, from the first to the last; numbers over at its end are no row.
#[derive(Drop)]
pub struct TableRows<'a> {
    table: &'a [usize],
    at: usize,
}

impl<'a> TableRows<'a> {
    pub fn of(table: &'a [usize]) -> TableRows<'a>
        ensures { rows_left result ≡ rows_of table.now }
    {
        TableRows { table, at: 0 }
    }
}

impl<'a> Iterator for TableRows<'a> {
    type Item = Row;

    ghost next_gives = { YieldsFirst rows_left };

    ghost remaining = { item_count rows_left };

    fn next(&mut self) -> Option<Row> {
        let row = row_at(self.table, self.at)?;
        self.at += WIDTH;
        Some(row)
    }
}

// Puts a row down, its first number at a place; where it does not fit, nothing is put down. Every other number of the table stays.
pub fn put_row(row: Row, table: &mut [usize], at: usize)
    ensures written { table.new ≡ row_put row table.old at }
    ensures wide { (WIDTH ≡ width) × (MOST ≡ 255 * width) }
{
    let n = table.len();
    if n < at {
        return;
    }
    if n - at < WIDTH {
        return;
    }
    table[at] = row.tag;
    table[at + 1] = row.start;
    table[at + 2] = row.place;
    table[at + 3] = row.size;
}
