// Text on standard output.
use std::io;

pub(crate) fn elements(rt: &impl Print, zs: &[i32]) -> io::Result<()> {
    for z in zs {
        print!(rt; " {z}")?;
    }
    Ok(())
}
