// Texts and what reading them must answer.
#![tactic(auto)]

#[cfg(test)]
mod tests {
    use std::test::Fail;
    use text::read;
    use traces::{Address, Draft, Instruction, Refusal};

    // What a text must answer: that it is read, or the number, layer, line and column of its fault, as it is the numbers that are tested.
    type Answer = Result<(), (u8, u8, usize, usize)>;

    // A text and what it must answer.
    #[derive(Clone, Copy)]
    struct Case {
        text: &'static [u8],
        answer: Answer,
    }

    const CASES: [Case; 26] = [
        Case {
            text: b"",
            answer: Ok(()),
        },
        Case {
            text: b"\n\n   \n",
            answer: Ok(()),
        },
        Case {
            text: b"0: M[1] == 2",
            answer: Ok(()),
        },
        Case {
            text: b"0:M[1]:=2\n",
            answer: Ok(()),
        },
        Case {
            text: b" 0 : < M [ 1 ] == 2 ; M [ 01 ] := 3 > \n1: sync",
            answer: Ok(()),
        },
        Case {
            text: b"0: M[1] = 1",
            answer: Err((11, 3, 1, 9)),
        },
        Case {
            text: b"0: <M[1] == 0; M[2] := 5>",
            answer: Err((13, 3, 1, 18)),
        },
        Case {
            text: b"0: syncsync",
            answer: Err((11, 3, 1, 8)),
        },
        Case {
            text: b"0:",
            answer: Err((11, 3, 1, 3)),
        },
        Case {
            text: b"0:  ",
            answer: Err((11, 3, 1, 5)),
        },
        Case {
            text: b"0:= M[1] := 1",
            answer: Err((11, 3, 1, 2)),
        },
        Case {
            text: b"M[1] := 1",
            answer: Err((11, 3, 1, 1)),
        },
        Case {
            text: b"0: M[1] == 1 1",
            answer: Err((11, 3, 1, 14)),
        },
        Case {
            text: b"0: M[1] == 1\r\n",
            answer: Err((11, 3, 1, 13)),
        },
        Case {
            text: b"0: M[1] == 1\n\r\n",
            answer: Err((11, 3, 2, 1)),
        },
        Case {
            text: b"0: M\t[1] == 1",
            answer: Err((11, 3, 1, 5)),
        },
        Case {
            text: b"0: syn",
            answer: Err((11, 3, 1, 4)),
        },
        Case {
            text: b"0: M[18446744073709551615] := 18446744073709551615",
            answer: Ok(()),
        },
        Case {
            text: b"0: M[18446744073709551616] := 1",
            answer: Err((12, 3, 1, 6)),
        },
        Case {
            text: b"  \n0: sync\n1: M[3] == 18446744073709551616",
            answer: Err((12, 3, 3, 12)),
        },
        Case {
            text: b"18446744073709551616: sync",
            answer: Err((12, 3, 1, 1)),
        },
        Case {
            text: b"0: <M[1] == 0; M[18446744073709551616] := 5>",
            answer: Err((12, 3, 1, 18)),
        },
        Case {
            text: b"0: sync 18446744073709551616",
            answer: Err((11, 3, 1, 9)),
        },
        Case {
            text: b"0: <M[1] == 0; M[1] := 5",
            answer: Err((11, 3, 1, 25)),
        },
        Case {
            text: b"0: <M[1] := 0; M[1] := 5>",
            answer: Err((11, 3, 1, 10)),
        },
        Case {
            text: b"0: M[1] == 0\n1: M[1 == 0",
            answer: Err((11, 3, 2, 8)),
        },
    ];

    // Reads a text into a draft.
    fn answer(draft: &mut Draft, text: &[u8]) -> Answer {
        read(draft, text).map_err(|fault| {
            (
                fault.cause.number(),
                fault.cause.layer(),
                fault.line,
                fault.column,
            )
        })
    }

    #[test]
    fn single_texts(rt: HostRuntime) -> Result<(), Fail> {
        for case in &CASES {
            let mut draft = Draft::new(rt.alloc())?;
            assert_eq!(rt; answer(&mut draft, case.text), case.answer);
        }
        Ok(())
    }

    // A text of `count` lines, one for each number from `first` on, with `front` and `back` around it.
    fn numbered(
        rt: HostRuntime,
        front: &str,
        back: &str,
        first: usize,
        count: usize,
    ) -> Result<String, Fail> {
        let mut text = String::new(rt.alloc());
        for number in first..first.saturating_add(count) {
            let line = format!(in rt.alloc(); "{front}{number}{back}\n")?;
            text.push_str(line.as_str())?;
        }
        Ok(text)
    }

    #[test]
    fn limits_of_a_draft(rt: HostRuntime) -> Result<(), Fail> {
        let mut entries = Draft::new(rt.alloc())?;
        let text = numbered(rt, "3: M[1] == ", "", 0, 64)?;
        assert_eq!(rt; answer(&mut entries, text.as_bytes()), Ok(()));
        assert_eq!(rt; answer(&mut entries, b"\n 3: sync"), Err((2, 1, 2, 2)));
        assert_eq!(rt; entries.len(), 64);

        let mut threads = Draft::new(rt.alloc())?;
        let text = numbered(rt, "", ": sync", 10, 8)?;
        assert_eq!(rt; answer(&mut threads, text.as_bytes()), Ok(()));
        assert_eq!(rt;
            answer(&mut threads, b"17: sync\n  18: sync"),
            Err((3, 1, 2, 3))
        );
        assert_eq!(rt; threads.len(), 8);

        let mut addresses = Draft::new(rt.alloc())?;
        let text = numbered(rt, "0: M[", "] := 1", 100, 16)?;
        assert_eq!(rt; answer(&mut addresses, text.as_bytes()), Ok(()));
        assert_eq!(rt;
            answer(
                &mut addresses,
                b"0: <M[115] == 1; M[115] := 2>\n0: <M[116] == 1; M[116] := 2>",
            ),
            Err((4, 1, 2, 7))
        );
        assert_eq!(rt; addresses.len(), 16);
        Ok(())
    }

    #[test]
    fn limit_of_a_text(rt: HostRuntime) -> Result<(), Fail> {
        let mut text = Vec::new(rt.alloc());
        text.resize(16383, b' ')?;
        text.push(b'\n')?;
        let mut draft = Draft::new(rt.alloc())?;
        assert_eq!(rt; answer(&mut draft, text.as_slice()), Ok(()));
        text.push(b'x')?;
        assert_eq!(rt; answer(&mut draft, text.as_slice()), Err((10, 3, 0, 0)));
        Ok(())
    }

    // The thread, the kind's number, the address and the two values of an instruction: all as numbers, which are what is tested.
    fn fields_of(instruction: Instruction) -> (u64, u64, u64, u64, u64) {
        (
            instruction.thread,
            u64::from(instruction.kind),
            instruction.address.number,
            instruction.read,
            instruction.written,
        )
    }

    // What adding answers, with the number and the layer of a refusal.
    fn refusal_of(answer: Result<(), Refusal>) -> Result<(), (u8, u8)> {
        answer.map_err(|refusal| (refusal.number(), refusal.layer()))
    }

    #[test]
    fn adding_directly(rt: HostRuntime) -> Result<(), Fail> {
        let mut draft = Draft::new(rt.alloc())?;
        let origin = Address { number: 7 };
        for _ in 0..64 {
            assert!(rt; draft.add(3, 3, origin, 5, 6).is_ok());
        }
        for kind in [4, 255, u64::MAX] {
            assert_eq!(rt; refusal_of(draft.add(9, kind, origin, 0, 0)), Err((1, 1)));
        }
        assert_eq!(rt; refusal_of(draft.add(9, 0, origin, 0, 0)), Err((2, 1)));
        let trace = draft.seal();
        assert_eq!(rt;
            (trace.len(), trace.thread_count(), trace.address_count()),
            (64, 1, 0)
        );
        let last = trace.instruction(63).ok_or("an instruction is missing")?;
        assert_eq!(rt; fields_of(last), (3, 3, 0, 0, 0));
        Ok(())
    }

    #[test]
    fn faults_are_shown(rt: HostRuntime) -> Result<(), Fail> {
        let mut draft = Draft::new(rt.alloc())?;
        match read(&mut draft, b"0: sync\n0: M[1] = 1") {
            Ok(()) => Err(Fail::new("a lone equals sign was read")),
            Err(fault) => {
                let shown = format!(in rt.alloc(); "{fault}")?;
                assert!(rt; shown.as_str() == "fault 11 layer 3 line 2 column 9");
                Ok(())
            }
        }
    }

    #[test]
    fn texts_follow_each_other(rt: HostRuntime) -> Result<(), Fail> {
        let mut draft = Draft::new(rt.alloc())?;
        assert_eq!(rt; answer(&mut draft, b"7: M[5] := 1\n7: sync"), Ok(()));
        assert_eq!(rt;
            answer(&mut draft, b"8: M[6] == 2\n9: M[7] := x"),
            Err((11, 3, 2, 12))
        );
        assert_eq!(rt; draft.len(), 2);
        assert_eq!(rt;
            answer(&mut draft, b"9: <M[5] == 1; M[5] := 3>\n7: M[8] == 4"),
            Ok(())
        );
        let trace = draft.seal();
        assert_eq!(rt; trace.thread_count(), 2);
        assert_eq!(rt; trace.address_count(), 2);
        let expected = [
            (7, 1, 5, 0, 1),
            (7, 3, 0, 0, 0),
            (9, 2, 5, 1, 3),
            (7, 0, 8, 4, 0),
        ];
        assert_eq!(rt; trace.len(), expected.len());
        for (instruction, fields) in trace.instructions().zip(expected) {
            assert_eq!(rt; fields_of(instruction), fields);
        }
        let last = trace.entry(3).ok_or("an entry is missing")?;
        assert_eq!(rt; (last.thread, last.address), (0, 1));
        assert!(rt; trace.entry(4).is_none());
        Ok(())
    }
}
