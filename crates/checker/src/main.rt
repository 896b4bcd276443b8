// Judges a way that is claimed to be a tour, read from the file that is named or else from standard input.
#![tactic(auto)]

use std::io::Read;
use std::process::ExitCode;
use std::{env, fs, io};
use text::{CheckCommand, Source, check_command_from};
use walk::Verdict;

const HELP: &str = "check [FILE]    judge the way that FILE, or standard input, claims to be a tour
check --help    print this";

// Kept: (a) `plan` has this too; a public function must pin its answer, and no contract can say what is read.
// Its buffers are gone before the way is judged: inlined, they would lie on the stack beside the marks.
#[inline(never)]
fn input(rt: &HostRuntime, source: Source) -> io::Result<Vec<u8>> {
    match source {
        Source::File(path) => fs::read(rt, path),
        Source::Standard => {
            let mut bytes = Vec::new(rt.alloc());
            rt.stdin().read_to_end(&mut bytes)?;
            Ok(bytes)
        }
    }
}

// Only a tour is a success.
fn judge(rt: &HostRuntime, claimed: &[u8]) -> anyhow::Result<ExitCode> {
    let judged = walk::check(claimed);
    match judged {
        Ok(verdict) => println!(rt; "{verdict}")?,
        Err(refusal) => println!(rt; "{refusal}")?,
    }
    match judged {
        Ok(Verdict::Way(_)) => Ok(ExitCode::SUCCESS),
        Ok(_) | Err(_) => Ok(ExitCode::FAILURE),
    }
}

fn run(rt: &HostRuntime, command: CheckCommand) -> anyhow::Result<ExitCode> {
    match command {
        CheckCommand::Check(source) => judge(rt, &input(rt, source)?),
        CheckCommand::Help => {
            println!(rt; "{HELP}")?;
            Ok(ExitCode::SUCCESS)
        }
    }
}

// What goes wrong is told here, and the status is all that is left of it.
// Kept: (d) `plan` begins and ends so too; one function for both would take the command, the run and the name as parameters.
fn main(rt: HostRuntime) -> io::Result<ExitCode> {
    let mut args = env::args(&rt)?.skip(1);
    let (first, second) = (args.next(), args.next());
    let command = match check_command_from(first.as_deref(), second.as_deref()) {
        Ok(command) => command,
        Err(misuse) => {
            eprintln!(rt; "check: {misuse}")?;
            return Ok(ExitCode::FAILURE);
        }
    };
    match run(&rt, command) {
        Ok(status) => Ok(status),
        Err(error) => {
            eprintln!(rt; "check: {error}")?;
            Ok(ExitCode::FAILURE)
        }
    }
}
