// The report of each case of data/, 0000 to 0991, in order, each after a line with its number.
#![tactic(auto)]

use arguments::{open_file, tell_failure};
use input::read_full;
use std::io;
use std::io::Read;
use text::put_digits;

// The name of case i, four digits.
fn name_of(i: u64) -> [u8; 4] {
    let mut name = [0; 4];
    put_digits::<10>(&mut name, 0, i, 4);
    name
}

fn print_report<R: Read>(rt: &impl Print, file: &mut R) -> io::Result<()> {
    let mut space = [0u8; 65537];
    let n = read_full(file, &mut space)?;
    let mut out = [0u8; 262144];
    let r = report::report(&space[..n], &mut out);
    rt.write_all(&out[..r])
}

fn run_case(rt: &HostRuntime, i: u64) -> io::Result<()> {
    let name = name_of(i);
    rt.write_all(&name)?;
    rt.write_all(b"\n")?;
    match open_file(rt, &name) {
        Ok(mut file) => print_report(rt, &mut file),
        Err(e) => {
            tell_failure(rt, &mut rt.stderr(), &name, e);
            Ok(())
        }
    }
}

fn main(rt: HostRuntime) -> io::Result<()> {
    for i in 0..992 {
        run_case(&rt, i)?;
    }
    Ok(())
}
