ghost use Rattle.std.specs.Prelude.{◌≡◌, ◌≤◌, true, false, length, take, MatchOption};
ghost use Rattle.std.specs.List.{list_all};
ghost use Rattle.lines.specs.Names.{stands_in, are_names, name_at};

use texts::Name;

// No name is longer.
const LONGEST: usize = 16;

// Whether the row lies in a text of so many bytes, and has 1 to 16 bytes.
fn stands_in(row: &Name, size: usize) -> bool
    ensures { result ≡ stands_in size row.now }
{
    row.start <= size && row.length <= size - row.start && (1..=LONGEST).contains(&row.length)
}

// Whether all of them do.
fn all_stand(rows: &[Name], size: usize) -> bool
    ensures { result ≡ list_all (stands_in size) rows.now }
{
    rows.iter().all(|row| stands_in(row, size))
}

// The first rows, so many, where the table has them and each stands in a text of so many bytes.
pub(crate) fn names_in<'a>(rows: &'a [Name], count: usize, size: usize) -> Option<&'a [Name]>
    ensures { MatchOption result (are_names size count rows.now ≡ false) (λ used. (are_names size count rows.now ≡ true) × (used.now ≡ take count rows.now)) }
{
    let used = rows.get(..count)?;
    if all_stand(used, size) {
        Some(used)
    } else {
        None
    }
}

// The name with this number, `?` where there is none.
pub(crate) fn name_at<'t>(text: &'t [u8], rows: &[Name], number: usize) -> &'t [u8]
    requires { list_all (stands_in (length text.now)) rows.now ≡ true }
    ensures bytes { result.now ≡ name_at text.now rows.now number }
    ensures few { length result.now ≤ 16 }
{
    match rows.get(number) {
        Some(row) => {
            let start = row.start;
            let end = start + row.length;
            &text[start..end]
        }
        None => b"?",
    }
}
