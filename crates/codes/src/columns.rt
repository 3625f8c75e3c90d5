// Which tables of columns make a code: a test at run time, and the law for every table that passes it.
ghost use Rattle.std.specs.Prelude.{◌≡◌, Decides};
ghost use Rattle.codes.specs.Columns.{Columns, AnyColumnsLawful};
ghost use Rattle.codes.specs.Tables.{first_test};

// Whether the sixteen numbers can serve as columns: all different, below 64, each of three or five ones.
pub fn columns_fit(columns: &[u8; 16]) -> bool
    ensures decides { Decides result (Columns columns.now) }
    ensures lawful { AnyColumnsLawful }
{
    columns
        .iter()
        .enumerate()
        .all(|(i, column)| column_fits(*column, &columns[i + 1..]))
}

// Below 64, of three or five ones, and none of those behind it.
fn column_fits(column: u8, behind: &[u8]) -> bool
    ensures { result ≡ first_test column behind.now }
{
    let ones = column.count_ones();
    column < 64 && (ones == 3 || ones == 5) && !behind.contains(&column)
}
