// Rows of class and total: a row is pooled with the row of its class, or comes to its place; the rows of a frame's lines so made a sheet.
#![tactic(auto)]

ghost use Rattle.std.specs.Prelude.{◌≡◌, [], ◌∷◌, ◌++◌, ◌≤◌, ◌<◌, take, drop};
ghost use Rattle.tabulation.specs.Rows.{pooled, line_rows};
ghost use Rattle.tabulation.specs.Cells.{rows_of, place_of, RoomFor, pool_into, Fitting};

#[repr(C)]
#[derive(Clone, Copy)]
pub struct Row {
    pub class: u32,
    pub total: u64,
}

// The first `count` rows; those past them are zero. A count beside an array, as the sheet that C has.
#[derive(Clone, Copy)]
pub struct Rows {
    pub count: usize,
    pub rows: [Row; 64],
}

// No rows.
pub fn no_rows() -> Rows
    ensures { result ≡ rows_of [] }
{
    let zero = Row { class: 0, total: 0 };
    Rows {
        count: 0,
        rows: [zero; 64],
    }
}

// How many of the first `count` rows have a class below this one, up to the first that has not.
fn place(rows: [Row; 64], count: usize, class: u32) -> usize
    requires { count ≤ 64 }
    ensures { (result ≡ place_of class (take count rows)) × (result ≤ count) }
{
    rows[..count]
        .iter()
        .position(|row| row.class >= class)
        .unwrap_or(count)
}

// The rows from `at` on moved by one, the last of them out, and the row put before them.
fn insert(rows: [Row; 64], at: usize, row: Row) -> [Row; 64]
    requires { at < 64 }
    ensures { result ≡ take 64 (take at rows ++ (row ∷ drop at rows)) }
{
    let mut next = rows;
    next.copy_within(at..63, at + 1);
    next[at] = row;
    next
}

// The row pooled with the row of its class, or come to its place. There is room for it, and its class's total fits.
fn pool(sheet: Rows, row: Row) -> Rows
    requires { RoomFor sheet row }
    ensures { result ≡ pool_into sheet row }
{
    let count = sheet.count;
    let mut rows = sheet.rows;
    let class = row.class;
    let at = place(rows, count, class);
    if at < count {
        let here = rows[at];
        if here.class == class {
            rows[at] = Row {
                class,
                total: row.total + here.total,
            };
            return Rows { count, rows };
        }
    }
    let next = insert(rows, at, row);
    Rows {
        count: count + 1,
        rows: next,
    }
}

// The sheet of the lines that are met, by their codes and totals. Public only for the crate above, which proves that the totals together fit.
pub fn tabulate(codes: [u32; 64], met: [bool; 64], totals: [u64; 64]) -> Rows
    requires { Fitting (line_rows codes met totals) }
    ensures { result ≡ rows_of (pooled (line_rows codes met totals)) }
{
    let mut sheet = no_rows();
    // A loop over the line's number: it walks three arrays by it, from the last line to the first.
    for i in (0..64).rev() {
        if met[i] {
            let class = codes[i];
            let total = totals[i];
            sheet = pool(sheet, Row { class, total });
        }
    }
    sheet
}
