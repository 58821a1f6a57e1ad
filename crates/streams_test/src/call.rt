// One call of a transducer, and the line that says what came out.
ghost use Rattle.std.specs.Prelude.{◌≤◌, length};

use crate::show::elements;
use snesl::code::Operation;
use std::{fmt, io};
use streams::Failure;

// A transducer, with its constant where it has one.
#[derive(Clone, Copy)]
pub(crate) enum Call {
    Const(i32),
    ToFlags,
    Usum,
    MapTwo(Operation),
    ScanPlus(i32),
    Distr,
    SumPlus,
    MapOneNot,
    Pack,
    UPack,
}

impl fmt::Display for Call {
    fn fmt<W: fmt::Write>(&self, f: &mut fmt::Formatter<W>) -> fmt::Result {
        match self {
            Call::Const(_) => f.write_str("Const"),
            Call::ToFlags => f.write_str("ToFlags"),
            Call::Usum => f.write_str("Usum"),
            Call::MapTwo(Operation::Plus) => f.write_str("MapTwo+"),
            Call::MapTwo(Operation::LessEqual) => f.write_str("MapTwo<="),
            Call::MapTwo(Operation::Equal) => f.write_str("MapTwo=="),
            Call::ScanPlus(_) => f.write_str("ScanPlus"),
            Call::Distr => f.write_str("Distr"),
            Call::SumPlus => f.write_str("SumPlus"),
            Call::MapOneNot => f.write_str("MapOneNot"),
            Call::Pack => f.write_str("Pack"),
            Call::UPack => f.write_str("UPack"),
        }
    }
}

// The operands stand in front of what the call writes to, as they do in the stream buffer.
pub(crate) fn run(
    rt: &impl Print,
    call: Call,
    n: usize,
    first: &[i32],
    second: &[i32],
    out: &mut [i32],
) -> io::Result<()>
    requires { length second.now ≤ 65536 }
{
    print!(rt; "{call}")?;
    print_answer(rt, answer(call, n, first, second, out))?;
    print!(rt; ":")?;
    elements(rt, first)?;
    elements(rt, second)?;
    elements(rt, out)?;
    println!(rt; "")
}

fn answer(
    call: Call,
    n: usize,
    first: &[i32],
    second: &[i32],
    out: &mut [i32],
) -> Result<usize, Failure>
    requires { length second.now ≤ 65536 }
{
    match call {
        Call::Const(z) => streams::constant(n, z, out),
        Call::ToFlags => itemwise::to_flags(n, first, out),
        Call::Usum => streams::usum(n, first),
        Call::MapTwo(o) => itemwise::map_two(o, n, first, second, out),
        Call::ScanPlus(z) => segmentwise::scan_plus(n, z, first, second, out),
        Call::Distr => segmentwise::distr(n, first, second, out),
        Call::SumPlus => segmentwise::sum_plus(n, first, second, out),
        Call::MapOneNot => itemwise::map_one_not(n, first, out),
        Call::Pack => itemwise::pack(n, first, second, out),
        Call::UPack => segmentwise::upack(n, first, second, out),
    }
}

fn print_answer(rt: &impl Print, answer: Result<usize, Failure>) -> io::Result<()> {
    match answer {
        Ok(made) => print!(rt; " made {made}"),
        Err(Failure::Unfit(k)) => print!(rt; " unfit {k}"),
        Err(Failure::Negative(k)) => print!(rt; " negative {k}"),
        Err(Failure::Outside(k)) => print!(rt; " outside {k}"),
        Err(Failure::NoRoom) => print!(rt; " no room"),
    }
}

pub(crate) fn clear(rt: &impl Print, buf: &mut [i32], from: usize) -> io::Result<()> {
    print!(rt; "clear:")?;
    streams::clear(buf, from);
    elements(rt, buf)?;
    println!(rt; "")
}
