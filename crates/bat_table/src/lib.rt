// The caller's table: one entry for each element, from the front. Everything that looks at the data is in `bat::framing` and in
// `steps`.
#![tactic(auto)]

mod steps;

ghost use Rattle.std.specs.Prelude.{◌≡◌, length, get_or};
ghost use Rattle.bat.specs.Framing.{cut};
ghost use Rattle.bat.specs.FramingMeaning.{count_of};
ghost use Rattle.bat_table.specs.Table.{no_entry, table_after, count_for_c};

use octets::{REFUSED, Refusal};

// Where an element is: its identifier, the place of its identifier octet in the data, and how many
// octets the whole element has.
#[repr(C)]
#[derive(Clone, Copy)]
pub struct Entry {
    pub identifier: u8,
    pub start: usize,
    pub length: usize,
}

// An element's entry, and the place after the element.
#[derive(Clone, Copy)]
struct Step {
    entry: Entry,
    next: usize,
}

// The entry that stands for none: no octets, which no element has.
const NO_ENTRY: Entry = Entry {
    identifier: 0,
    start: 0,
    length: 0,
};

// Stores the entries of the data's elements at the front of the table, in order, and answers their count. Or refuses the
// data, and leaves the table as it was: if it is too long, if it can't be framed, or if the table is too small.
pub fn store_elements(data: &[u8], table: &mut [Entry]) -> Result<usize, Refusal>
    ensures { (result ≡ count_of (cut (length table.old) «data».now)) × (table.new ≡ table_after «data».now table.old) }
{
    let answer = bat::framing::count(data, table.len());
    let stored = answer.unwrap_or(0);
    let mut at = 0;
    for i in 0..stored {
        let s = steps::step_at(data, at);
        table[i] = s.entry;
        at = s.next;
    }
    answer
}

// Entry i of the table, from 0. If the table has none, an entry of no octets, which no element has.
pub fn entry_at(table: &[Entry], i: usize) -> Entry
    ensures { result ≡ get_or table.now i no_entry }
{
    table.get(i).copied().unwrap_or(NO_ENTRY)
}

// `store_elements` as C calls it, by the crate `bat_table_c`. Its answer is one number: the count, or octets::REFUSED plus
// the number that refuses the data.
pub fn bat_table_store(data: &[u8], table: &mut [Entry]) -> usize
    ensures { (result ≡ count_for_c (count_of (cut (length table.old) «data».now))) × (table.new ≡ table_after «data».now table.old) }
{
    match store_elements(data, table) {
        Ok(n) => n,
        Err(e) => REFUSED + e.number() as usize,
    }
}
