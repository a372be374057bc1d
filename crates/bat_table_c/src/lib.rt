// The caller's table of element entries, for C: what include/bat_table.h declares. The clauses are those of `bat_table`.
#![tactic(auto)]

ghost use Rattle.std.specs.Prelude.{◌≡◌, length};
ghost use Rattle.bat.specs.Framing.{cut};
ghost use Rattle.bat.specs.FramingMeaning.{count_of};
ghost use Rattle.bat_table.specs.Table.{table_after, count_for_c};

use bat_table::Entry;

// Stores the entries of the data's elements at the front of the table, in order. The answer is their count, or
// octets::REFUSED plus the number that refuses the data; then the table stays as it was.
#[unsafe(no_mangle)]
pub extern "C" fn bat_table_store(data: &[u8], table: &mut [Entry]) -> usize
    ensures { (result ≡ count_for_c (count_of (cut (length table.old) «data».now))) × (table.new ≡ table_after «data».now table.old) }
{
    bat_table::bat_table_store(data, table)
}
