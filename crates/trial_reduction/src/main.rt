//! Measures reduction and conversion. The figures go to standard error; standard output says which aims
//! are met.
#![tactic(auto)]

mod around;
mod clock;
mod looks;
mod memory;
mod terms;

use plain_reduction::World;
use std::io;

fn main(rt: HostRuntime) -> io::Result<()> {
    let alloc = rt.alloc();
    match World::new(alloc) {
        Ok(mut world) => {
            memory::trial(&rt, &world.env)?;
            around::trial(&rt, &world.env)?;
            looks::trial(&rt, &mut world)
        }
        Err(_) => println!(rt; "not declared"),
    }
}
