// Counts the nodes of a sheet, name by name, from standard input to standard output: the whole world and all time.
#![tactic(auto)]

use sheetcount_lib::run;

// Runs the program with the standard streams.
fn main(rt: HostRuntime) {
    run(&mut rt.stdin(), &mut rt.stdout(), &mut rt.stderr());
}
