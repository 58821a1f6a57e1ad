// Runs each transducer on empty segments at the start, in the middle and at the end, on lengths 0, 1 and a buffer that is just full, and at both ends of the
// number range. Each line has the transducer, its answer and the whole buffer after the call; `stdout` was worked out by hand from documents 01 and 001.
#![tactic(auto)]

mod call;
mod show;

use call::{Call, clear, run};
use snesl::code::Operation;
use std::io;

fn main(rt: HostRuntime) -> io::Result<()> {
    constants(&rt)?;
    flags(&rt)?;
    units(&rt)?;
    pluses(&rt)?;
    scans(&rt)?;
    spreads(&rt)?;
    sums(&rt)?;
    comparisons(&rt)?;
    negations(&rt)?;
    packs(&rt)?;
    segment_packs(&rt)?;
    let mut three = [1, 2, 3];
    clear(&rt, &mut three, 1)
}

fn constants(rt: &impl Print) -> io::Result<()> {
    let mut two = [9, 9];
    run(rt, Call::Const(7), 0, &[], &[], &mut two)?;
    let mut middle = [9, 9];
    run(rt, Call::Const(-2147483648), 1, &[9], &[], &mut middle)?;
    let mut full = [9, 9, 9];
    run(rt, Call::Const(2147483647), 3, &[], &[], &mut full)?;
    let mut short = [9, 9];
    run(rt, Call::Const(7), 3, &[9], &[], &mut short)
}

fn flags(rt: &impl Print) -> io::Result<()> {
    let mut empties = [9, 9, 9, 9, 9, 9];
    run(rt, Call::ToFlags, 3, &[0, 2, 0], &[], &mut empties)?;
    let mut none = [9];
    run(rt, Call::ToFlags, 0, &[], &[], &mut none)?;
    let mut full = [9, 9, 9];
    run(rt, Call::ToFlags, 1, &[2], &[], &mut full)?;
    let mut short = [9, 9];
    run(rt, Call::ToFlags, 1, &[2], &[], &mut short)?;
    let mut huge = [9];
    run(rt, Call::ToFlags, 2, &[2147483647, -1], &[], &mut huge)?;
    let mut unfit = [9];
    run(rt, Call::ToFlags, 2, &[1], &[], &mut unfit)
}

fn units(rt: &impl Print) -> io::Result<()> {
    let mut empties = [];
    run(rt, Call::Usum, 3, &[1, 0, 0, 1, 1], &[], &mut empties)?;
    let mut none = [9];
    run(rt, Call::Usum, 0, &[], &[], &mut none)?;
    let mut cut = [];
    run(rt, Call::Usum, 1, &[0], &[], &mut cut)?;
    let mut noflag = [];
    run(rt, Call::Usum, 2, &[1, 2], &[], &mut noflag)?;
    let mut over = [];
    run(rt, Call::Usum, 1, &[1, 1], &[], &mut over)
}

fn pluses(rt: &impl Print) -> io::Result<()> {
    let mut ends = [9, 9];
    run(
        rt,
        Call::MapTwo(Operation::Plus),
        2,
        &[2147483647, -2147483648],
        &[-1, 1],
        &mut ends,
    )?;
    let mut high = [9];
    run(
        rt,
        Call::MapTwo(Operation::Plus),
        2,
        &[1, 2147483647],
        &[1, 1],
        &mut high,
    )?;
    let mut low = [9];
    run(
        rt,
        Call::MapTwo(Operation::Plus),
        1,
        &[-2147483648],
        &[-1],
        &mut low,
    )?;
    let mut short = [9];
    run(
        rt,
        Call::MapTwo(Operation::Plus),
        2,
        &[1, 2],
        &[3, 4],
        &mut short,
    )?;
    let mut unfit = [9, 9];
    run(
        rt,
        Call::MapTwo(Operation::Plus),
        2,
        &[1, 2],
        &[3],
        &mut unfit,
    )?;
    let mut none = [9];
    run(rt, Call::MapTwo(Operation::Plus), 0, &[], &[], &mut none)
}

fn scans(rt: &impl Print) -> io::Result<()> {
    let mut empties = [9, 9, 9];
    run(
        rt,
        Call::ScanPlus(10),
        5,
        &[1, 0, 0, 1, 1, 0, 1, 1],
        &[5, 6, 7],
        &mut empties,
    )?;
    let mut last = [9, 9];
    run(
        rt,
        Call::ScanPlus(0),
        1,
        &[0, 0, 1],
        &[2147483647, 1],
        &mut last,
    )?;
    let mut high = [9, 9];
    run(
        rt,
        Call::ScanPlus(0),
        1,
        &[0, 0, 0, 1],
        &[2147483647, 1, 1],
        &mut high,
    )?;
    let mut low = [9, 9];
    run(
        rt,
        Call::ScanPlus(-2147483648),
        2,
        &[1, 0, 0, 1],
        &[-1, 5],
        &mut low,
    )?;
    let mut unfit = [9, 9];
    run(
        rt,
        Call::ScanPlus(0),
        1,
        &[0, 0, 0],
        &[2147483647, 1, 1],
        &mut unfit,
    )?;
    let mut short = [9];
    run(rt, Call::ScanPlus(0), 1, &[0, 0, 1], &[5, 6], &mut short)?;
    let mut none = [9];
    run(rt, Call::ScanPlus(0), 0, &[], &[], &mut none)
}

fn spreads(rt: &impl Print) -> io::Result<()> {
    let mut empties = [9, 9, 9];
    run(
        rt,
        Call::Distr,
        5,
        &[1, 0, 0, 1, 1, 0, 1, 1],
        &[1, 2, 3, 4, 5],
        &mut empties,
    )?;
    let mut one = [9];
    run(rt, Call::Distr, 1, &[0, 1], &[-2147483648], &mut one)?;
    let mut empty = [9];
    run(rt, Call::Distr, 1, &[1], &[8], &mut empty)?;
    let mut short = [9];
    run(rt, Call::Distr, 1, &[0, 0, 1], &[8], &mut short)?;
    let mut left = [9];
    run(rt, Call::Distr, 1, &[1], &[8, 8], &mut left)?;
    let mut none = [9];
    run(rt, Call::Distr, 0, &[], &[], &mut none)
}

fn sums(rt: &impl Print) -> io::Result<()> {
    let mut empties = [9, 9, 9, 9, 9];
    run(
        rt,
        Call::SumPlus,
        5,
        &[1, 0, 0, 1, 1, 0, 1, 1],
        &[5, 6, 7],
        &mut empties,
    )?;
    let mut high = [9];
    run(
        rt,
        Call::SumPlus,
        1,
        &[0, 0, 0, 1],
        &[2147483647, 1, -1],
        &mut high,
    )?;
    let mut low = [9];
    run(
        rt,
        Call::SumPlus,
        1,
        &[0, 0, 0, 1],
        &[-2147483648, -1, 1],
        &mut low,
    )?;
    let mut outside = [9, 9];
    run(
        rt,
        Call::SumPlus,
        2,
        &[1, 0, 0, 1],
        &[2147483647, 1],
        &mut outside,
    )?;
    let mut unfit = [9, 9];
    run(
        rt,
        Call::SumPlus,
        2,
        &[0, 0, 1, 0],
        &[2147483647, 1, 1],
        &mut unfit,
    )?;
    let mut short = [9];
    run(rt, Call::SumPlus, 2, &[1, 1], &[], &mut short)?;
    let mut none = [9];
    run(rt, Call::SumPlus, 0, &[], &[], &mut none)
}

fn comparisons(rt: &impl Print) -> io::Result<()> {
    let mut ends = [9, 9, 9];
    run(
        rt,
        Call::MapTwo(Operation::LessEqual),
        3,
        &[-2147483648, 2147483647, 5],
        &[2147483647, -2147483648, 5],
        &mut ends,
    )?;
    let mut short = [9];
    run(
        rt,
        Call::MapTwo(Operation::LessEqual),
        2,
        &[1, 2],
        &[3, 4],
        &mut short,
    )?;
    let mut none = [9];
    run(
        rt,
        Call::MapTwo(Operation::LessEqual),
        0,
        &[],
        &[],
        &mut none,
    )?;
    let mut same = [9, 9, 9, 9];
    run(
        rt,
        Call::MapTwo(Operation::Equal),
        3,
        &[-1, 0, 2147483647],
        &[1, 0, 2147483647],
        &mut same,
    )?;
    let mut unfit = [9, 9];
    run(
        rt,
        Call::MapTwo(Operation::Equal),
        2,
        &[1, 2],
        &[3],
        &mut unfit,
    )
}

fn negations(rt: &impl Print) -> io::Result<()> {
    let mut bools = [9, 9, 9, 9, 9];
    run(rt, Call::MapOneNot, 4, &[0, 1, 7, -1], &[], &mut bools)?;
    let mut short = [9];
    run(rt, Call::MapOneNot, 2, &[1, 0], &[], &mut short)?;
    let mut unfit = [9];
    run(rt, Call::MapOneNot, 2, &[1], &[], &mut unfit)?;
    let mut none = [9];
    run(rt, Call::MapOneNot, 0, &[], &[], &mut none)
}

fn packs(rt: &impl Print) -> io::Result<()> {
    let mut ends = [9, 9, 9];
    run(
        rt,
        Call::Pack,
        4,
        &[1, 0, 0, 1],
        &[5, 6, 7, -2147483648],
        &mut ends,
    )?;
    let mut nothing = [];
    run(rt, Call::Pack, 2, &[0, 0], &[5, 6], &mut nothing)?;
    let mut full = [9, 9];
    run(rt, Call::Pack, 2, &[1, 1], &[5, 6], &mut full)?;
    let mut short = [9];
    run(rt, Call::Pack, 2, &[1, 1], &[5, 6], &mut short)?;
    let mut unfit = [9];
    run(rt, Call::Pack, 2, &[1], &[5, 6], &mut unfit)?;
    let mut none = [9];
    run(rt, Call::Pack, 0, &[], &[], &mut none)
}

fn segment_packs(rt: &impl Print) -> io::Result<()> {
    let mut empties = [9, 9, 9, 9, 9];
    run(
        rt,
        Call::UPack,
        4,
        &[1, 0, 1, 1],
        &[1, 0, 0, 1, 1, 0, 1],
        &mut empties,
    )?;
    let mut nothing = [];
    run(rt, Call::UPack, 1, &[0], &[0, 1], &mut nothing)?;
    let mut last = [9];
    run(rt, Call::UPack, 2, &[0, 1], &[0, 1, 1], &mut last)?;
    let mut short = [9];
    run(rt, Call::UPack, 1, &[1], &[0, 1], &mut short)?;
    let mut unfit = [9];
    run(rt, Call::UPack, 2, &[1], &[1, 1], &mut unfit)?;
    let mut noflag = [9];
    run(rt, Call::UPack, 1, &[1], &[2], &mut noflag)?;
    let mut none = [9];
    run(rt, Call::UPack, 0, &[], &[], &mut none)
}
