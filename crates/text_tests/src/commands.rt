// The commands that arguments ask for.
use std::test::Fail;
use text::{
    CheckCommand, Misuse, PlanCommand, Source, check_command, check_command_from, plan_command,
    plan_command_from,
};

// What is asked for, and the file or the option that is named; no name stands for standard input.
type Asked<'a> = (&'static str, &'a str);

fn named(source: Source<'_>) -> &str {
    match source {
        Source::Standard => "",
        Source::File(name) => name,
    }
}

fn misused(misuse: Misuse<'_>) -> Asked<'_> {
    match misuse {
        Misuse::Unknown(name) => ("unknown", name),
        Misuse::TooMany => ("too many", ""),
    }
}

fn plan_asked<'a>(command: Result<PlanCommand<'a>, Misuse<'a>>) -> Asked<'a> {
    match command {
        Ok(PlanCommand::Lines(source)) => ("lines", named(source)),
        Ok(PlanCommand::Steps(source)) => ("steps", named(source)),
        Ok(PlanCommand::Svg(source)) => ("svg", named(source)),
        Ok(PlanCommand::Help) => ("help", ""),
        Err(misuse) => misused(misuse),
    }
}

fn check_asked<'a>(command: Result<CheckCommand<'a>, Misuse<'a>>) -> Asked<'a> {
    match command {
        Ok(CheckCommand::Check(source)) => ("check", named(source)),
        Ok(CheckCommand::Help) => ("help", ""),
        Err(misuse) => misused(misuse),
    }
}

// The arguments, as far as there are any, and what they ask for.
struct Row(&'static [&'static str], &'static str, &'static str);

const PLAN: [Row; 27] = [
    Row(&[], "lines", ""),
    Row(&["a.list"], "lines", "a.list"),
    Row(&["steps"], "lines", "steps"),
    Row(&["a-b"], "lines", "a-b"),
    Row(&[""], "lines", ""),
    Row(&["./--steps"], "lines", "./--steps"),
    Row(&["a", "b"], "too many", ""),
    Row(&["a", "b", "c"], "too many", ""),
    Row(&["a", "--steps"], "too many", ""),
    Row(&["--steps"], "steps", ""),
    Row(&["--steps", "a"], "steps", "a"),
    Row(&["--steps", "a", "b"], "too many", ""),
    Row(&["--steps", "--svg"], "unknown", "--svg"),
    Row(&["--steps", "--", "a"], "unknown", "--"),
    Row(&["--svg"], "svg", ""),
    Row(&["--svg", "a"], "svg", "a"),
    Row(&["--svg", "a", "b"], "too many", ""),
    Row(&["--svg", "--help"], "unknown", "--help"),
    Row(&["--help"], "help", ""),
    Row(&["--help", "a"], "too many", ""),
    Row(&["--help", "--help"], "too many", ""),
    Row(&["--"], "unknown", "--"),
    Row(&["-"], "unknown", "-"),
    Row(&["--step"], "unknown", "--step"),
    Row(&["--stepss"], "unknown", "--stepss"),
    Row(&["--SVG"], "unknown", "--SVG"),
    Row(&["-h", "a", "b"], "unknown", "-h"),
];

const CHECK: [Row; 9] = [
    Row(&[], "check", ""),
    Row(&["a.claim"], "check", "a.claim"),
    Row(&["a", "b"], "too many", ""),
    Row(&["--help"], "help", ""),
    Row(&["--help", "a"], "too many", ""),
    Row(&["--steps"], "unknown", "--steps"),
    Row(&["--"], "unknown", "--"),
    Row(&["-", "a"], "unknown", "-"),
    Row(&["--helpp"], "unknown", "--helpp"),
];

#[test]
fn commands(rt: HostRuntime) {
    for Row(args, want, name) in &PLAN {
        assert_eq!(rt;
            plan_asked(plan_command(args)),
            (*want, *name),
            "plan {args:?}"
        );
        let one_by_one = plan_command_from(
            args.first().copied(),
            args.get(1).copied(),
            args.get(2).copied(),
        );
        assert_eq!(rt;
            plan_asked(one_by_one),
            (*want, *name),
            "plan {args:?}, one by one"
        );
    }
    for Row(args, want, name) in &CHECK {
        assert_eq!(rt;
            check_asked(check_command(args)),
            (*want, *name),
            "check {args:?}"
        );
        let one_by_one = check_command_from(args.first().copied(), args.get(1).copied());
        assert_eq!(rt;
            check_asked(one_by_one),
            (*want, *name),
            "check {args:?}, one by one"
        );
    }
}

// What comes after an argument that is left out counts for nothing.
#[test]
fn arguments_left_out(rt: HostRuntime) {
    assert_eq!(rt;
        plan_asked(plan_command_from(None, Some("a"), Some("b"))),
        ("lines", "")
    );
    assert_eq!(rt;
        plan_asked(plan_command_from(Some("--steps"), None, Some("a"))),
        ("steps", "")
    );
    assert_eq!(rt;
        plan_asked(plan_command_from(Some("--help"), None, Some("a"))),
        ("help", "")
    );
    assert_eq!(rt;
        check_asked(check_command_from(None, Some("a"))),
        ("check", "")
    );
}

#[test]
fn misuses(rt: HostRuntime) -> Result<(), Fail> {
    let unknown = format!(in rt.alloc(); "{}", Misuse::Unknown("--all"))?;
    assert_eq!(rt; unknown.as_str(), "unknown option --all");
    let many = format!(in rt.alloc(); "{}", Misuse::TooMany)?;
    assert_eq!(rt; many.as_str(), "too many arguments");
    Ok(())
}
