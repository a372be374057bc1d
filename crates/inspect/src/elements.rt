// elements PASS ENTRIES HEX: application data as a whole, and element by element.
use crate::{input, print, values};
use bat::{DataOutcome, Diagnostic, Frame, Judged, Outcome, Taken, Value, framing};
use notation::push_refused;
use octets::append::Cursor;
use octets::{parts, spans};

// Appends the word for the data's outcome.
fn push_outcome(o: DataOutcome, out: &mut Cursor<'_>) {
    match o {
        DataOutcome::Neither => out.push(b"neither "),
        DataOutcome::DiscardAll => out.push(b"data "),
        DataOutcome::ReleaseAll => out.push(b"release "),
    }
}

// Appends the word for what an unknown element asks for.
fn push_asked(o: Outcome, out: &mut Cursor<'_>) {
    match o {
        Outcome::PassOn => out.push(b"unknown:pass:"),
        Outcome::DiscardElement => out.push(b"unknown:element:"),
        Outcome::DiscardData => out.push(b"unknown:data:"),
        Outcome::Release => out.push(b"unknown:release:"),
    }
}

// Appends whether the element asks for notice.
fn push_notice(notice: bool, out: &mut Cursor<'_>) {
    out.push(if notice { b"1:" } else { b"0:" });
}

fn push_diagnostic(d: Diagnostic, out: &mut Cursor<'_>) {
    print::diagnostic(d.identifier, d.index as u64, out);
}

// Appends the judgement of an unknown element.
fn push_judged(j: Judged, out: &mut Cursor<'_>) {
    push_asked(j.outcome, out);
    push_notice(j.notice, out);
    push_diagnostic(j.diagnostic, out);
}

// Appends the front of the element f, which starts at `start`.
fn push_front(f: Frame, start: usize, out: &mut Cursor<'_>) {
    out.push_octet(b' ');
    out.push_number_then(f.identifier as u64, b'/');
    out.push_number_then(start as u64, b'/');
    out.push_number_then(framing::whole_length(f) as u64, b'/');
}

// Appends the finding on the element f at the front of s.
fn push_finding(s: &[u8], f: Frame, finding: Result<Value, Judged>, out: &mut Cursor<'_>) {
    match finding {
        Ok(value) => values::push_value(framing::contents(s, f), value, out),
        Err(j) => push_judged(j, out),
    }
}

// Appends each element of the data.
fn push_elements(data: &[u8], pass: bool, out: &mut Cursor<'_>) {
    let mut rest = data;
    while !rest.is_empty() {
        let Ok(Some(x)) = bat_read::examine_first(rest, pass) else {
            return;
        };
        push_front(x.frame, data.len() - rest.len(), out);
        push_finding(rest, x.frame, x.finding, out);
        rest = spans::after(rest, framing::whole_length(x.frame));
    }
}

// Appends a listed diagnostic, after a `;` unless it is the first, which is at `first`.
fn push_listing(d: Diagnostic, first: usize, out: &mut Cursor<'_>) {
    if first < out.at {
        out.push_octet(b';');
    }
    push_diagnostic(d, out);
}

// Appends the listed diagnostics of the data's elements. (The next one is always looked for after this one; the `if`
// shows that the loop ends.)
fn push_listings(data: &[u8], pass: bool, out: &mut Cursor<'_>) {
    let first = out.at;
    let mut i = 0;
    while i < data.len() {
        let Some(x) = bat_read::next_listed(data, i, pass) else {
            return;
        };
        push_listing(x.diagnostic, first, out);
        if x.next <= i {
            return;
        }
        i = x.next;
    }
}

// Appends the listed diagnostics, or `-` if there are none.
fn push_listed(data: &[u8], pass: bool, out: &mut Cursor<'_>) {
    out.push(b" listed=");
    let first = out.at;
    push_listings(data, pass, out);
    if out.at <= first {
        out.push_octet(b'-');
    }
}

// Appends the answer to data that is taken.
fn push_taken(data: &[u8], taken: Taken, pass: bool, out: &mut Cursor<'_>) {
    push_outcome(taken.outcome, out);
    out.push_number(taken.count as u64);
    push_elements(data, pass, out);
    push_listed(data, pass, out);
}

// Appends the answer to data, with a table of so many entries.
fn push_data(data: &[u8], entries: u16, pass: bool, out: &mut Cursor<'_>) {
    match bat_read::judge_data(data, entries as usize, pass) {
        Ok(taken) => push_taken(data, taken, pass, out),
        Err(e) => push_refused(e.number(), out),
    }
}

// Appends the answer to the line, unless it is a bad one.
pub(crate) fn push_answer(line: &[u8], data: &mut [u8], out: &mut Cursor<'_>) -> Option<()> {
    if parts::separators(line, b' ') != 3 {
        return None;
    }
    let pass = input::number(line, 1)?;
    if 1 < pass {
        return None;
    }
    let entries = input::number(line, 2)?;
    let n = input::unpack(line, 3, data)?;
    push_data(spans::up_to(data, n), entries, pass == 1, out);
    Some(())
}
