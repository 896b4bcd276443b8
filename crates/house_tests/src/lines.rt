// The lines that refusals are shown as.
use house::Refusal;
use std::test::Fail;

// A refusal and its line.
struct Shown(Refusal, &'static str);

const SHOWN: [Shown; 14] = [
    Shown(Refusal::Aisles, "refused 1 at 0"),
    Shown(Refusal::Deep, "refused 2 at 1"),
    Shown(Refusal::Apart, "refused 3 at 2"),
    Shown(Refusal::List(0), "refused 4 at 0"),
    Shown(Refusal::List(1), "refused 4 at 1"),
    Shown(Refusal::List(1026), "refused 4 at 1026"),
    Shown(Refusal::List(131070), "refused 4 at 131070"),
    Shown(
        Refusal::List(usize::MAX),
        "refused 4 at 18446744073709551615",
    ),
    Shown(Refusal::NoAisle(0), "refused 5 at 0"),
    Shown(Refusal::NoAisle(9), "refused 5 at 9"),
    Shown(Refusal::NoAisle(511), "refused 5 at 511"),
    Shown(Refusal::NoShelf(0), "refused 6 at 0"),
    Shown(Refusal::NoShelf(10), "refused 6 at 10"),
    Shown(Refusal::NoShelf(511), "refused 6 at 511"),
];

#[test]
fn lines(rt: HostRuntime) -> Result<(), Fail> {
    for Shown(refusal, line) in &SHOWN {
        let shown = format!(in rt.alloc(); "{refusal}")?;
        assert_eq!(rt; shown.as_str(), *line);
    }
    Ok(())
}
