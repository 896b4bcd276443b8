// What the arguments of a program ask for.
ghost use Rattle.std.specs.Prelude.{◌≡◌, slice_get};
ghost use Rattle.text.specs.Commands.{dashed, alone, source_of, plan_command_of, check_command_of};

// Where a program reads from.
#[derive(Clone, Copy, Debug, PartialEq, Eq)]
pub enum Source<'a> {
    Standard,
    File(&'a str),
}

// What `plan` is asked for: the lines of a way, its steps as `check` reads them, or a picture of it.
#[derive(Clone, Copy, Debug, PartialEq, Eq)]
pub enum PlanCommand<'a> {
    Lines(Source<'a>),
    Steps(Source<'a>),
    Svg(Source<'a>),
    Help,
}

#[derive(Clone, Copy, Debug, PartialEq, Eq)]
pub enum CheckCommand<'a> {
    Check(Source<'a>),
    Help,
}

// Arguments that a program is not made for.
#[derive(Clone, Copy, Debug, PartialEq, Eq)]
pub enum Misuse<'a> {
    Unknown(&'a str),
    TooMany,
}

// By the arguments of `plan`.
pub fn plan_command<'a>(args: &[&'a str]) -> Result<PlanCommand<'a>, Misuse<'a>>
    ensures { result ≡ plan_command_of (slice_get args.entry.now 0) (slice_get args.entry.now 1) (slice_get args.entry.now 2) }
{
    let [name, rest @ ..] = args else {
        return Ok(PlanCommand::Lines(Source::Standard));
    };
    match *name {
        "--help" => alone(rest, PlanCommand::Help),
        "--steps" => read_from(rest).map(PlanCommand::Steps),
        "--svg" => read_from(rest).map(PlanCommand::Svg),
        _ => read_from(args).map(PlanCommand::Lines),
    }
}

// By the first three arguments of `plan`, as they are taken one by one: what comes after one that is left out counts for nothing.
pub fn plan_command_from<'a>(
    first: Option<&'a str>,
    second: Option<&'a str>,
    third: Option<&'a str>,
) -> Result<PlanCommand<'a>, Misuse<'a>>
    ensures { result ≡ plan_command_of first.entry second.entry third.entry }
{
    match (first, second, third) {
        (None, _, _) => plan_command(&[]),
        (Some(first), None, _) => plan_command(&[first]),
        (Some(first), Some(second), None) => plan_command(&[first, second]),
        (Some(first), Some(second), Some(third)) => plan_command(&[first, second, third]),
    }
}

// By the arguments of `check`.
pub fn check_command<'a>(args: &[&'a str]) -> Result<CheckCommand<'a>, Misuse<'a>>
    ensures { result ≡ check_command_of (slice_get args.entry.now 0) (slice_get args.entry.now 1) }
{
    let [name, rest @ ..] = args else {
        return Ok(CheckCommand::Check(Source::Standard));
    };
    match *name {
        "--help" => alone(rest, CheckCommand::Help),
        _ => read_from(args).map(CheckCommand::Check),
    }
}

// By the first two arguments of `check`, as they are taken one by one.
pub fn check_command_from<'a>(
    first: Option<&'a str>,
    second: Option<&'a str>,
) -> Result<CheckCommand<'a>, Misuse<'a>>
    ensures { result ≡ check_command_of first.entry second.entry }
{
    match (first, second) {
        (None, _) => check_command(&[]),
        (Some(first), None) => check_command(&[first]),
        (Some(first), Some(second)) => check_command(&[first, second]),
    }
}

fn read_from<'a>(args: &[&'a str]) -> Result<Source<'a>, Misuse<'a>>
    ensures { result ≡ source_of (slice_get args.entry.now 0) (slice_get args.entry.now 1) }
{
    match args {
        [] => Ok(Source::Standard),
        [name, ..] if is_option(name) => Err(Misuse::Unknown(name)),
        [name, more @ ..] => alone(more, Source::File(name)),
    }
}

// What is asked for, if there are no more arguments.
fn alone<'a, T: Drop>(more: &[&'a str], asked: T) -> Result<T, Misuse<'a>>
    ensures { result ≡ alone (slice_get more.entry.now 0) asked }
{
    if more.is_empty() {
        Ok(asked)
    } else {
        Err(Misuse::TooMany)
    }
}

// What begins with a hyphen is no file's name.
fn is_option(name: &str) -> bool
    ensures { result ≡ dashed name.now }
{
    name.starts_with('-')
}
