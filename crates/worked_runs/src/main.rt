// Document 01's worked sums, the mistakes it has seen before, and document 02's fixed fields, list forms and prices: each is run through the
// libraries, printed, and held to what the documents say. The sums that document 01 marks P are not run: worked_sums states them in one table.
#![tactic(auto)]

mod blocks;
mod fixed_fields;
mod list_forms;
mod looking;
mod mistakes;
mod prices;
mod printing;
mod reading;
mod sheets;
mod shortest;

use printing::Persistent;

// Runs the sums. Each section, and what holds much on the stack in one, is a function that is not compiled into its caller, so that no more is held at
// once than is used. What cannot be printed is left out, what comes later is tried all the same, and the program ends as it would have.
fn main(rt: HostRuntime) {
    let rt = Persistent(&rt);
    let _ = shortest::run(&rt);
    let _ = mistakes::run(&rt);
    let _ = looking::run(&rt);
    let _ = fixed_fields::run(&rt);
    let _ = list_forms::run(&rt);
    let _ = prices::run(&rt);
}
