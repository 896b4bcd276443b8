// Ways and what the checker says of them.
#![tactic(auto)]

#[cfg(test)]
mod tests {
    use std::alloc::{AllocError, Global};
    use std::process::Abort;
    use std::test::Fail;
    use walk::check as judge;

    #[derive(Clone, Copy)]
    struct Case<'a> {
        // the number of aisles, their depth and their distance
        house: [u8; 3],
        // an aisle and a depth for each pick
        list: &'a [u8],
        // a digit for each step
        way: &'a [u8],
        line: &'a str,
    }

    fn file_of(heap: Global, case: Case<'_>) -> Result<Vec<u8>, AllocError> {
        let mut file = Vec::from_slice(heap, &case.house)?;
        let picks = (case.list.len() / 2).to_le_bytes();
        file.extend_from_slice(&picks[..2])?;
        file.extend_from_slice(case.list)?;
        file.extend(case.way.iter().map(|digit| digit.wrapping_sub(b'0')))?;
        Ok(file)
    }

    fn answer(heap: Global, case: Case<'_>) -> Result<String, AllocError> {
        let file = file_of(heap, case)?;
        match judge(file.as_slice()) {
            Ok(verdict) => format!(in heap; "{verdict}"),
            Err(refusal) => format!(in heap; "{refusal}"),
        }
    }

    fn expect(rt: &impl Abort, heap: Global, cases: &[Case<'_>]) -> Result<(), Fail> {
        for case in cases {
            assert_eq!(rt; answer(heap, *case)?.as_str(), case.line);
        }
        Ok(())
    }

    // Shortest ways, one of them to the last aisle of the widest house, and longer ones.
    #[test]
    fn tours(rt: HostRuntime) -> Result<(), Fail> {
        expect(
            &rt,
            rt.alloc(),
            &[
                Case {
                    house: [1, 10, 3],
                    list: &[0, 4],
                    way: b"00001111",
                    line: "way of length 8",
                },
                Case {
                    house: [2, 10, 3],
                    list: &[0, 9, 1, 9],
                    way: b"0000000000411111111113",
                    line: "way of length 26",
                },
                Case {
                    house: [3, 10, 2],
                    list: &[0, 1, 0, 9, 2, 5],
                    way: b"000000000044111111111133",
                    line: "way of length 28",
                },
                Case {
                    house: [4, 12, 3],
                    list: &[0, 2, 0, 11, 1, 6, 2, 1, 3, 3, 3, 4, 3, 10],
                    way: b"00000000000041111110000004411111111111130133",
                    line: "way of length 56",
                },
                Case {
                    house: [3, 6, 5],
                    list: &[0, 3, 1, 3, 2, 3],
                    way: b"0001112000111200011133",
                    line: "way of length 38",
                },
                Case {
                    house: [2, 8, 1],
                    list: &[],
                    way: b"",
                    line: "way of length 0",
                },
                Case {
                    house: [5, 10, 4],
                    list: &[1, 8, 3, 2, 3, 9, 4, 5],
                    way: b"2000000000044104111111111130011333",
                    line: "way of length 58",
                },
                Case {
                    house: [1, 10, 3],
                    list: &[0, 4, 0, 4],
                    way: b"0000000000111111111101",
                    line: "way of length 22",
                },
                Case {
                    house: [2, 10, 200],
                    list: &[1, 4],
                    way: b"2000011113",
                    line: "way of length 408",
                },
                Case {
                    house: [64, 2, 200],
                    list: &[63, 1],
                    way: b"22222222222222222222222222222222222222222222222222222222222222201333333333333333333333333333333333333333333333333333333333333333",
                    line: "way of length 25202",
                },
                Case {
                    house: [2, 3, 7],
                    list: &[0, 2, 1, 1],
                    way: b"000411005111",
                    line: "way of length 24",
                },
            ],
        )
    }

    // Ways that end elsewhere, and ways that miss the first pick, the last or one between.
    #[test]
    fn no_tours(rt: HostRuntime) -> Result<(), Fail> {
        expect(
            &rt,
            rt.alloc(),
            &[
                Case {
                    house: [2, 10, 3],
                    list: &[],
                    way: b"0",
                    line: "ends elsewhere",
                },
                Case {
                    house: [2, 10, 3],
                    list: &[],
                    way: b"2",
                    line: "ends elsewhere",
                },
                Case {
                    house: [2, 10, 3],
                    list: &[0, 4],
                    way: b"0000",
                    line: "ends elsewhere",
                },
                Case {
                    house: [2, 10, 3],
                    list: &[0, 4, 1, 4],
                    way: b"00000000004",
                    line: "ends elsewhere",
                },
                Case {
                    house: [2, 10, 3],
                    list: &[0, 4],
                    way: b"",
                    line: "misses 0",
                },
                Case {
                    house: [2, 10, 3],
                    list: &[0, 4],
                    way: b"01",
                    line: "misses 0",
                },
                Case {
                    house: [2, 10, 3],
                    list: &[0, 4, 1, 4],
                    way: b"2000011113",
                    line: "misses 0",
                },
                Case {
                    house: [2, 10, 3],
                    list: &[0, 4, 1, 4],
                    way: b"00001111",
                    line: "misses 1",
                },
                Case {
                    house: [2, 10, 3],
                    list: &[1, 4, 0, 4, 1, 5],
                    way: b"200001111300001111",
                    line: "misses 2",
                },
                Case {
                    house: [2, 10, 3],
                    list: &[0, 9, 1, 9, 1, 9],
                    way: b"000000000111111111",
                    line: "misses 1",
                },
                Case {
                    house: [2, 10, 3],
                    list: &[1, 9, 0, 9, 0, 5],
                    way: b"00000000001111111111",
                    line: "misses 0",
                },
                Case {
                    house: [2, 10, 3],
                    list: &[0, 5, 0, 4, 0, 9],
                    way: b"0000000011111111",
                    line: "misses 2",
                },
                Case {
                    house: [1, 10, 3],
                    list: &[0, 9, 0, 1],
                    way: b"01",
                    line: "misses 0",
                },
            ],
        )
    }

    // A step over each side of the house, at a wrong depth, or none of the six; and the rules that come before.
    #[test]
    fn refused_ways(rt: HostRuntime) -> Result<(), Fail> {
        expect(
            &rt,
            rt.alloc(),
            &[
                Case {
                    house: [2, 10, 3],
                    list: &[],
                    way: b"1",
                    line: "refused 8 at 0",
                },
                Case {
                    house: [2, 10, 3],
                    list: &[],
                    way: b"00000000000",
                    line: "refused 8 at 10",
                },
                Case {
                    house: [2, 10, 3],
                    list: &[],
                    way: b"3",
                    line: "refused 8 at 0",
                },
                Case {
                    house: [2, 10, 3],
                    list: &[],
                    way: b"00000000005",
                    line: "refused 8 at 10",
                },
                Case {
                    house: [2, 10, 3],
                    list: &[],
                    way: b"22",
                    line: "refused 8 at 1",
                },
                Case {
                    house: [2, 10, 3],
                    list: &[],
                    way: b"000000000044",
                    line: "refused 8 at 11",
                },
                Case {
                    house: [2, 10, 3],
                    list: &[],
                    way: b"02",
                    line: "refused 8 at 1",
                },
                Case {
                    house: [2, 10, 3],
                    list: &[],
                    way: b"203",
                    line: "refused 8 at 2",
                },
                Case {
                    house: [2, 10, 3],
                    list: &[],
                    way: b"4",
                    line: "refused 8 at 0",
                },
                Case {
                    house: [2, 10, 3],
                    list: &[],
                    way: b"0000000004",
                    line: "refused 8 at 9",
                },
                Case {
                    house: [2, 10, 3],
                    list: &[],
                    way: b"25",
                    line: "refused 8 at 1",
                },
                Case {
                    house: [2, 10, 3],
                    list: &[],
                    way: b"00000000002",
                    line: "refused 8 at 10",
                },
                Case {
                    house: [2, 10, 3],
                    list: &[],
                    way: b"000000000043",
                    line: "refused 8 at 11",
                },
                Case {
                    house: [2, 10, 3],
                    list: &[],
                    way: b"0000000000415",
                    line: "refused 8 at 12",
                },
                Case {
                    house: [1, 10, 3],
                    list: &[],
                    way: b"2",
                    line: "refused 8 at 0",
                },
                Case {
                    house: [1, 10, 3],
                    list: &[],
                    way: b"00000000004",
                    line: "refused 8 at 10",
                },
                Case {
                    house: [2, 10, 3],
                    list: &[],
                    way: b"000000000006",
                    line: "refused 7 at 11",
                },
                Case {
                    house: [2, 10, 3],
                    list: &[],
                    way: b"6",
                    line: "refused 7 at 0",
                },
                Case {
                    house: [2, 10, 3],
                    list: &[0, 4],
                    way: b"16",
                    line: "refused 7 at 1",
                },
                Case {
                    house: [2, 10, 3],
                    list: &[],
                    way: b"01/",
                    line: "refused 7 at 2",
                },
                Case {
                    house: [0, 10, 3],
                    list: &[],
                    way: b"6",
                    line: "refused 1 at 0",
                },
                Case {
                    house: [2, 10, 3],
                    list: &[2, 4],
                    way: b"6",
                    line: "refused 5 at 0",
                },
                Case {
                    house: [2, 10, 3],
                    list: &[0, 4, 1, 10],
                    way: b"1",
                    line: "refused 6 at 1",
                },
            ],
        )
    }
}
