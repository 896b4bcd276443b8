// Plans each list that is named, and has the checker judge the steps of its tour: a line for each, with the length and the verdict.
#![tactic(auto)]

use planner::{CELLS, Lent, PICKS, STEPS, USES, plan};
use std::{env, fs};
use text::claim;
use walk::DESK;

fn main(rt: HostRuntime) -> anyhow::Result<()> {
    for name in env::args(&rt)?.skip(1) {
        plan_case(&rt, &name)?;
    }
    Ok(())
}

fn plan_case(rt: &HostRuntime, name: &str) -> anyhow::Result<()> {
    let heap = rt.alloc();
    let file = fs::read(rt, name)?;
    // Kept: (a) `plan` lends memory so too; no library that plans uses the heap, and a public function must pin its answer.
    let mut picks = vec![in heap; DESK; PICKS]?;
    let mut lengths = vec![in heap; 0u32; CELLS]?;
    let mut came = vec![in heap; 0u8; CELLS]?;
    let mut steps = vec![in heap; 0u8; STEPS]?;
    let mut uses = vec![in heap; 0u8; USES]?;
    let mut memory = Lent {
        picks: &mut picks,
        lengths: &mut lengths,
        came: &mut came,
        steps: &mut steps,
        uses: &mut uses,
    };
    match plan(&file, &mut memory) {
        Ok(walked) => {
            steps.truncate(walked.steps);
            let length = walked.length;
            print!(rt; "{name}: length {length}, ")?;
            print_verdict(rt, &claim(heap, &file, &steps)?)
        }
        Err(refusal) => {
            println!(rt; "{name}: {refusal}")?;
            Ok(())
        }
    }
}

fn print_verdict(rt: &HostRuntime, claimed: &[u8]) -> anyhow::Result<()> {
    match walk::check(claimed) {
        Ok(verdict) => println!(rt; "{verdict}")?,
        Err(refusal) => println!(rt; "{refusal}")?,
    }
    Ok(())
}
