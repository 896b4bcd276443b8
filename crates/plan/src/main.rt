// Plans a pick list: prints the pieces of a shortest tour and its length, writes its steps for the checker, or draws it.
#![tactic(auto)]

use house::{House, Refusal, Spot, list_of};
use picture::picture;
use planner::{CELLS, Lent, PICKS, STEPS, USES, plan};
use std::alloc::{AllocError, Global};
use std::io::{Read, Write};
use std::process::ExitCode;
use std::{env, fs, io};
use text::{PlanCommand, Source, claim, plan_command_from, way_text};

const HELP: &str =
    "plan [FILE]            print a shortest tour past the picks of FILE, or of standard input
plan --steps [FILE]    write its steps instead, as check reads them
plan --svg [FILE]      write a picture of it instead, in SVG
plan --help            print this";

// Kept: (a) `checker` has this too; a public function must pin its answer, and no contract can say what is read.
fn input(rt: &HostRuntime, source: Source) -> io::Result<Vec<u8>> {
    match source {
        Source::File(path) => fs::read(rt, path),
        Source::Standard => {
            let mut bytes = Vec::new(rt.alloc());
            rt.stdin().read_to_end(&mut bytes)?;
            Ok(bytes)
        }
    }
}

// A shortest tour of a house.
#[derive(Drop)]
struct Tour {
    house: House,
    steps: Vec<u8>,
}

// Why there is no tour.
#[derive(Drop)]
enum NoTour {
    Refused(Refusal),
    OutOfMemory(AllocError),
}

impl From<Refusal> for NoTour {
    fn from(refusal: Refusal) -> NoTour {
        NoTour::Refused(refusal)
    }
}

impl From<AllocError> for NoTour {
    fn from(error: AllocError) -> NoTour {
        NoTour::OutOfMemory(error)
    }
}

// The file is held to its rules before memory is asked for.
fn tour_of(heap: Global, file: &[u8]) -> Result<Tour, NoTour> {
    let house = house::read(file)?.house;
    let mut picks = vec![in heap; Spot { aisle: 0, depth: 0 }; PICKS]?;
    let mut lengths = vec![in heap; 0u32; CELLS]?;
    let mut came = vec![in heap; 0u8; CELLS]?;
    let mut steps = vec![in heap; 0u8; STEPS]?;
    let mut uses = vec![in heap; 0u8; USES]?;
    let mut memory = Lent {
        picks: &mut picks,
        lengths: &mut lengths,
        came: &mut came,
        steps: &mut steps,
        uses: &mut uses,
    };
    let walked = plan(file, &mut memory)?;
    steps.truncate(walked.steps);
    Ok(Tour { house, steps })
}

// Writes what is made of the tour, or tells why there is none.
fn show<M, R>(rt: &HostRuntime, file: &[u8], make: M, refuse: R) -> anyhow::Result<ExitCode>
where
    M: FnOnce(&Tour) -> Result<Vec<u8>, AllocError>,
    R: FnOnce(Refusal) -> io::Result<()>,
    requires makes { M.IsAlwaysCallable make }
    requires refuses { R.IsAlwaysCallable refuse }
{
    match tour_of(rt.alloc(), file) {
        Ok(tour) => {
            rt.stdout().write_all(&make(&tour)?)?;
            Ok(ExitCode::SUCCESS)
        }
        Err(NoTour::Refused(refusal)) => {
            refuse(refusal)?;
            Ok(ExitCode::FAILURE)
        }
        Err(NoTour::OutOfMemory(error)) => Err(error.into()),
    }
}

// Where the output is a file of its own sort, a refusal goes to standard error.
fn run(rt: &HostRuntime, command: PlanCommand) -> anyhow::Result<ExitCode> {
    let heap = rt.alloc();
    match command {
        PlanCommand::Help => {
            println!(rt; "{HELP}")?;
            Ok(ExitCode::SUCCESS)
        }
        PlanCommand::Lines(source) => show(
            rt,
            &input(rt, source)?,
            |tour| Ok(way_text(heap, tour.house, &tour.steps)?.into_bytes()),
            |refusal| println!(rt; "{refusal}"),
        ),
        PlanCommand::Steps(source) => {
            let file = input(rt, source)?;
            show(
                rt,
                &file,
                |tour| claim(heap, &file, &tour.steps),
                |refusal| eprintln!(rt; "{refusal}"),
            )
        }
        PlanCommand::Svg(source) => {
            let file = input(rt, source)?;
            show(
                rt,
                &file,
                |tour| Ok(picture(heap, tour.house, list_of(&file), &tour.steps)?.into_bytes()),
                |refusal| eprintln!(rt; "{refusal}"),
            )
        }
    }
}

// What goes wrong is told here, and the status is all that is left of it.
fn main(rt: HostRuntime) -> io::Result<ExitCode> {
    let mut args = env::args(&rt)?.skip(1);
    let (first, second, third) = (args.next(), args.next(), args.next());
    let command = match plan_command_from(first.as_deref(), second.as_deref(), third.as_deref()) {
        Ok(command) => command,
        Err(misuse) => {
            eprintln!(rt; "plan: {misuse}")?;
            return Ok(ExitCode::FAILURE);
        }
    };
    match run(&rt, command) {
        Ok(status) => Ok(status),
        Err(error) => {
            eprintln!(rt; "plan: {error}")?;
            Ok(ExitCode::FAILURE)
        }
    }
}
