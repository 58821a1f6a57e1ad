// Reading a formula and a job: refusals 1 to 4, at each record in that order, first record first (document 01, "Refusal numbers").
ghost use Rattle.std.specs.Prelude.{◌≡◌, ◌+◌, ◌≤◌, length, eqb};
ghost use Rattle.snesl.specs.Limits.{most_inputs};
ghost use Rattle.snesl.specs.Records.{head_at, inputs_at, texts_at, front_of, mark_va, span_at, read_formula, read_job};
ghost use Rattle.snesl.specs.Records as records;
ghost use Rattle.formula.specs.Reading.{asked_of, admitted, scanned_of, entry_at, declared_of, text_at, texts_of, formula_of, ended, job_of};

use crate::inputs::is_input;
use records::head::{Head, has_bytes, head_at, mark_at};
use records::marks::Mark;
use snesl::limits::{Formula, Job};
use snesl::refusal::Refusal;

// What the record at a position asks: nothing behind it, two expressions behind a LT, one behind an EA or a GU; each with the position behind the record.
#[derive(Clone, Copy, Debug, PartialEq, Eq)]
enum Asks {
    Leaf(usize),
    Let(usize),
    Nested(usize),
}

// An expression's end, and how many records have been read with it.
#[derive(Clone, Copy, Debug, PartialEq, Eq)]
struct Scanned {
    end: usize,
    records: usize,
}

// How many input records there are, and the position behind them.
#[derive(Clone, Copy, Debug, PartialEq, Eq)]
struct Declared {
    inputs: usize,
    end: usize,
}

// What the record at k asks, if it is whole and within its limits.
fn asked(bytes: &[u8], k: usize) -> Result<Asks, Refusal>
    ensures { result ≡ asked_of k (head_at bytes.now k) }
{
    match head_at(bytes, k)? {
        Head::Let(_) => Ok(Asks::Let(k + 3)),
        Head::Each(_, _, listed) => Ok(Asks::Nested(k + (5 + listed))),
        Head::Guard(_, listed) => Ok(Asks::Nested(k + (4 + listed))),
        Head::Const(_) => Ok(Asks::Leaf(k + 6)),
        Head::Operation(_, _, _) => Ok(Asks::Leaf(k + 4)),
        // An arm each: of one arm for several patterns the proof learns none of them.
        Head::Var(_) => Ok(Asks::Leaf(k + 3)),
        Head::Truth(_) => Ok(Asks::Leaf(k + 3)),
        Head::Iota(_) => Ok(Asks::Leaf(k + 3)),
        Head::Negation(_) => Ok(Asks::Leaf(k + 3)),
        Head::Sum(_) => Ok(Asks::Leaf(k + 3)),
    }
}

// Is there room for a record at k, where n have been read and `levels` nestings are left, this record's own included?
fn admit(k: usize, n: usize, levels: usize) -> Result<(), Refusal>
    ensures { result ≡ admitted levels k n }
{
    if 0 < levels && n < Formula::RECORDS {
        Ok(())
    } else {
        Err(Refusal::TooMany(k))
    }
}

// The expression at k, where n records have been read and `levels` nestings are left.
fn scan(bytes: &[u8], k: usize, n: usize, levels: usize) -> Result<Scanned, Refusal>
    ensures { result ≡ scanned_of (records.scan levels bytes.now k n) }
{
    let asks = asked(bytes, k)?;
    admit(k, n, levels)?;
    match asks {
        Asks::Leaf(end) => Ok(Scanned {
            end,
            records: n + 1,
        }),
        Asks::Let(bound) => {
            let body = scan(bytes, bound, n + 1, levels - 1)?;
            scan(bytes, body.end, body.records, levels - 1)
        }
        Asks::Nested(body) => scan(bytes, body, n + 1, levels - 1),
    }
}

// Does an input record stand at k, within its limits?
fn entry_at(bytes: &[u8], k: usize) -> Result<bool, Refusal>
    ensures { result ≡ entry_at bytes.now k }
{
    if !is_input(mark_at(bytes, k)) {
        return Ok(false);
    }
    if !has_bytes(bytes, k, 4) {
        return Err(Refusal::NoRecord(k));
    }
    if Formula::VARIABLE < bytes[k + 2] || Formula::DEPTH < bytes[k + 3] {
        return Err(Refusal::OverLimit(k));
    }
    Ok(true)
}

// The input records that the bytes start with.
fn declare(bytes: &[u8]) -> Result<Declared, Refusal>
    ensures { result ≡ declared_of (inputs_at most_inputs bytes.now 0) }
{
    for inputs in 0..Formula::INPUTS {
        let end = 4 * inputs;
        if !entry_at(bytes, end)? {
            return Ok(Declared { inputs, end });
        }
    }
    let inputs = Formula::INPUTS;
    let end = 4 * inputs;
    if entry_at(bytes, end)? {
        return Err(Refusal::TooMany(end));
    }
    Ok(Declared { inputs, end })
}

// The formula that the bytes start with.
fn front(bytes: &[u8]) -> Result<Formula, Refusal>
    ensures { result ≡ formula_of (front_of bytes.now) }
{
    if Formula::BYTES < bytes.len() {
        return Err(Refusal::TooLong);
    }
    let declared = declare(bytes)?;
    let scanned = scan(bytes, declared.end, 0, Formula::NESTING + 1)?;
    Ok(Formula {
        inputs: declared.inputs,
        expression: declared.end,
        end: scanned.end,
    })
}

// Nothing may stand behind what was read.
fn ended(bytes: &[u8], end: usize) -> Result<(), Refusal>
    ensures { result ≡ ended bytes.now end }
{
    if end == bytes.len() {
        Ok(())
    } else {
        Err(Refusal::NoRecord(end))
    }
}

// A formula, behind which nothing may stand.
pub fn read_formula(bytes: &[u8]) -> Result<Formula, Refusal>
    ensures { result ≡ formula_of (read_formula bytes.now) }
{
    let found = front(bytes)?;
    ended(bytes, found.end)?;
    Ok(found)
}

// Does the mark start an input's text?
fn is_text(mark: u16) -> bool
    ensures { result ≡ eqb mark mark_va }
{
    match Mark::try_from(mark) {
        Ok(Mark::Text) => true,
        // An arm each: of one arm for several patterns the proof learns none of them.
        Ok(Mark::Input(_)) => false,
        Ok(Mark::Expression(_)) => false,
        Err(_) => false,
    }
}

// How many bytes the text of the VA record at k has.
fn size_at(bytes: &[u8], k: usize) -> usize
    requires { k + 4 ≤ length bytes.now }
    ensures { result ≡ (span_at bytes.now k).bytes }
{
    usize::from(u16::from_le_bytes([bytes[k + 2], bytes[k + 3]]))
}

// The position behind the VA record at k, where a whole one stands.
pub fn text_at(bytes: &[u8], k: usize) -> Option<usize>
    ensures { result ≡ text_at bytes.now k }
{
    if !is_text(mark_at(bytes, k)) || !has_bytes(bytes, k, 4) {
        return None;
    }
    let start = k + 4;
    let size = size_at(bytes, k);
    has_bytes(bytes, start, size).then_some(start + size)
}

// The position behind as many VA records as there are inputs, from k on.
fn texts_from(bytes: &[u8], inputs: usize, from: usize) -> Result<usize, Refusal>
    ensures { result ≡ texts_of (texts_at inputs bytes.now from) }
{
    let mut k = from;
    for _ in 0..inputs {
        k = text_at(bytes, k).ok_or(Refusal::NoRecord(k))?;
    }
    Ok(k)
}

// A job: a formula, its inputs' texts, and nothing more.
pub fn read_job(bytes: &[u8]) -> Result<Job, Refusal>
    ensures { result ≡ job_of bytes.now (read_job bytes.now) }
{
    let formula = front(bytes)?;
    let end = texts_from(bytes, formula.inputs, formula.end)?;
    ended(bytes, end)?;
    Ok(Job { formula, end })
}
