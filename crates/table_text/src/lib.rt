// The selection table as text, one decimal entry a line. `write_table` works the entries out by the rule;
// `compare_table` holds a text that somebody has against the table that the library chooses by.
#![tactic(auto)]

ghost use Rattle.std.specs.Prelude.{◌≡◌, cond, ◌+◌, ◌≤◌, nat_abs, length, drop, Some, None};
ghost use Rattle.selection.specs.Selection.{InTable, nearest};
ghost use Rattle.text.specs.Text.{RoomFor, Written};
ghost use Rattle.table_text.specs.TableText.{entry_line, table_text, table_room, table_written, table_answer, table_buffer, begins_with, table_compared, compared};

use job::Refused;
use selection::ESTIMATES;
use text::Page;

// How many bytes write_table is lent at least: 1,024 lines of at most 4.
const TABLE_ROOM: usize = 4096;

// The whole number nearest to e / 32, a tie away from zero: half a unit with e's sign is added, and a
// division with a sign cuts toward zero, so that magnitudes are rounded, those of negative numbers too.
fn nearest(e: i64) -> i64
    requires { InTable e }
    ensures { result ≡ nearest e }
{
    let half: i64 = if e < 0 { -16 } else { 16 };
    (e + half) / 32
}

// The line of an entry.
fn put_entry(page: &mut Page, z: i64)
    requires { RoomFor page.old (entry_line z) }
    ensures { Written page.old (entry_line z) page.new }
{
    page.signed(z);
    page.byte(b'\n');
}

// The lines of all entries, each by the rule, from the least estimate on.
fn put_table(page: &mut Page)
    requires { page.old.at + table_room ≤ length page.old.out.now }
    ensures { Written page.old table_text page.new }
{
    for k in 0..ESTIMATES {
        let z = nearest((k as i64) - 512);
        put_entry(page, z);
    }
}

// Writes the table and gives the number of bytes: its text stands at the front of the buffer, and the bytes
// past it stay. A buffer of fewer than 4,096 bytes is refused by 23, and all its bytes stay.
pub fn write_table(out: &mut [u8]) -> Result<usize, Refused>
    ensures answer { table_written result ≡ table_answer (length out.old) }
    ensures buffer { out.new ≡ table_buffer out.old }
{
    if out.len() < TABLE_ROOM {
        return Err(Refused::TooLittleRoom);
    }
    let mut page = Page { out, at: 0 };
    put_table(&mut page);
    Ok(page.at)
}

// The place after the line of z, where it stands in s from a place on.
fn after_line(s: &[u8], from: usize, z: i64) -> Option<usize>
    requires { (from ≤ length s.now) × (nat_abs z ≤ 16) }
    ensures { result ≡ cond (begins_with (drop from s.now) (entry_line z)) (Some (from + length (entry_line z))) None }
{
    let mut line = [0u8; 32];
    let mut page = Page {
        out: &mut line,
        at: 0,
    };
    put_entry(&mut page, z);
    let n = page.at;
    if s.len() - from < n {
        return None;
    }
    if check::same(&s[from..from + n], &line[0..n]) {
        Some(from + n)
    } else {
        None
    }
}

// Holds the text s against the library's table, entry by entry, and gives the place of the first entry whose
// line differs, or 1,024 where more follows the table's lines; nothing where the text is the table's.
pub fn compare_table(s: &[u8]) -> Option<usize>
    ensures { table_compared result ≡ compared s.now }
{
    let t = selection::table();
    let mut at: usize = 0;
    for k in 0..ESTIMATES {
        let Some(end) = after_line(s, at, i64::from(t[k])) else {
            return Some(k);
        };
        at = end;
    }
    if s.len() == at { None } else { Some(ESTIMATES) }
}
