// One expression record by itself: what stands at a position, whatever stands there. Every walk over a formula's bytes (reading, checking, listing,
// running) goes from record to record by `head_at`.
ghost use Rattle.std.specs.Prelude.{◌≡◌, ◌+◌, ◌≤◌, length, leb, nat_le};
ghost use Rattle.std.specs.List.{list_all};
ghost use Rattle.snesl.specs.Limits.{last_variable};
ghost use Rattle.std.proofs.Math.Option.{some};
ghost use Rattle.snesl.specs.Records.{mark_at, head_at, variables_ok, int_at};
ghost use Rattle.records.specs.Marks.{form_of};
ghost use Rattle.records.specs.Heads.{head_of, shaped, truth_shaped, list_shaped, shape_of};

use crate::marks::{Form, Mark};
use snesl::code::{Operation, Variable};
use snesl::limits::Formula;
use snesl::refusal::Refusal;

// An expression record's fields. Each's count says how many listed variables follow its first five bytes, Guard's how many follow its first four.
#[derive(Clone, Copy, Debug, PartialEq, Eq)]
pub enum Head {
    Var(Variable),
    Let(Variable),
    Const(i32),
    Truth(bool),
    Iota(Variable),
    Operation(Operation, Variable, Variable),
    Negation(Variable),
    Sum(Variable),
    Each(Variable, Variable, usize),
    Guard(Variable, usize),
}

// Do `size` bytes stand at k?
pub fn has_bytes(bytes: &[u8], k: usize, size: usize) -> bool
    ensures { result ≡ leb (k + size) (length bytes.now) }
{
    k.checked_add(size).is_some_and(|end| end <= bytes.len())
}

// The mark at k, and 0, which is none, where two bytes don't stand there.
pub fn mark_at(bytes: &[u8], k: usize) -> u16
    ensures { result ≡ mark_at bytes.now k }
{
    if has_bytes(bytes, k, 2) {
        u16::from_be_bytes([bytes[k], bytes[k + 1]])
    } else {
        0
    }
}

// Is each of these bytes a variable's?
fn variables_ok(names: &[u8]) -> bool
    ensures { result ≡ list_all (λ name. nat_le name last_variable) names.now }
{
    names.iter().all(|name| *name <= Formula::VARIABLE)
}

// The whole number that four bytes from k on hold.
fn int_at(bytes: &[u8], k: usize) -> i32
    requires { k + 4 ≤ length bytes.now }
    ensures { result ≡ int_at bytes.now k }
{
    i32::from_le_bytes([bytes[k], bytes[k + 1], bytes[k + 2], bytes[k + 3]])
}

// A record of `size` bytes at k whose first fields are `count` variables: is it whole, and then within its limits?
fn sized(bytes: &[u8], k: usize, size: usize, count: usize) -> Result<(), Refusal>
    requires { 2 + count ≤ size }
    ensures { result ≡ shaped bytes.now k size (variables_ok bytes.now (k + 2) count) }
{
    if !has_bytes(bytes, k, size) {
        return Err(Refusal::NoRecord(k));
    }
    if !variables_ok(&bytes[k + 2..k + 2 + count]) {
        return Err(Refusal::OverLimit(k));
    }
    Ok(())
}

// A KB record at k: its byte is 0 or 1, or there is no record.
fn truth_shape(bytes: &[u8], k: usize) -> Result<(), Refusal>
    ensures { result ≡ truth_shaped bytes.now k }
{
    if has_bytes(bytes, k, 3) && bytes[k + 2] <= 1 {
        Ok(())
    } else {
        Err(Refusal::NoRecord(k))
    }
}

// A record at k with `count` variables, then a using list: the list's count says how long the record is.
fn list_shape(bytes: &[u8], k: usize, count: usize) -> Result<(), Refusal>
    requires { count ≤ 2 }
    ensures { result ≡ list_shaped bytes.now k count }
{
    let listed_from = 3 + count;
    if !has_bytes(bytes, k, listed_from) {
        return Err(Refusal::NoRecord(k));
    }
    let listed = usize::from(bytes[k + (2 + count)]);
    sized(bytes, k, listed_from + listed, count)?;
    let names = &bytes[k + listed_from..k + listed_from + listed];
    if Formula::LISTED < listed || !variables_ok(names) {
        return Err(Refusal::OverLimit(k));
    }
    Ok(())
}

// The record at k, if its mark is this form's.
fn shape_of(bytes: &[u8], k: usize, form: Form) -> Result<(), Refusal>
    ensures { result ≡ shape_of bytes.now k form }
{
    match form {
        Form::Var | Form::Let | Form::Iota | Form::Negation | Form::Sum => sized(bytes, k, 3, 1),
        Form::Operation(_) => sized(bytes, k, 4, 2),
        Form::Const => sized(bytes, k, 6, 0),
        Form::Truth => truth_shape(bytes, k),
        Form::Each => list_shape(bytes, k, 2),
        Form::Guard => list_shape(bytes, k, 1),
    }
}

// The fields of a record that is whole and within its limits.
fn fields(bytes: &[u8], k: usize, form: Form) -> Head
    requires form_is { form_of (mark_at bytes.now k) ≡ some form }
    requires fits { shape_of bytes.now k form ≡ Ok tt }
    ensures { Ok result ≡ head_of k (head_at bytes.now k) }
{
    let x = Variable(bytes[k + 2]);
    match form {
        Form::Var => Head::Var(x),
        Form::Let => Head::Let(x),
        Form::Iota => Head::Iota(x),
        Form::Negation => Head::Negation(x),
        Form::Sum => Head::Sum(x),
        Form::Const => Head::Const(int_at(bytes, k + 2)),
        Form::Truth => Head::Truth(bytes[k + 2] == 1),
        Form::Operation(operation) => Head::Operation(operation, x, Variable(bytes[k + 3])),
        Form::Each => Head::Each(x, Variable(bytes[k + 3]), usize::from(bytes[k + 4])),
        Form::Guard => Head::Guard(x, usize::from(bytes[k + 3])),
    }
}

// What stands at k, for any k: no record that is whole, one over a limit, or its fields.
pub fn head_at(bytes: &[u8], k: usize) -> Result<Head, Refusal>
    ensures { result ≡ head_of k (head_at bytes.now k) }
{
    match Mark::try_from(mark_at(bytes, k)) {
        Ok(Mark::Expression(form)) => {
            shape_of(bytes, k, form)?;
            Ok(fields(bytes, k, form))
        }
        // An arm each: of one arm for several patterns the proof learns none of them.
        Ok(Mark::Input(_)) => Err(Refusal::NoRecord(k)),
        Ok(Mark::Text) => Err(Refusal::NoRecord(k)),
        Err(_) => Err(Refusal::NoRecord(k)),
    }
}
