// Runs small traces whose lines are known from the rules.
#![tactic(auto)]

#[cfg(test)]
mod tests {
    use rules::{QueuedWrite, Refusal};
    use standard::run_standard;
    use std::alloc::Global;
    use std::iter::repeat_n;
    use std::process::Abort;
    use std::test::Fail;
    use trace::{LONGEST_TRACE, Line, Output, Reader, Record, Refused};

    // Three notes, one of them empty. Their length fields start at 1, 6 and 9.
    const NOTES: [u8; 13] = *b"\x01\x00\x03\x06ab\x00\x01\x06\x00\x02\x06c";

    // Holds a run with so much room to the lines that it must print. `shows` does so for one line; a closure for what fills
    // the buffer would be no plainer.
    fn prints(
        rt: &impl Abort,
        heap: Global,
        trace: &[u8],
        room: usize,
        want: &[u8],
    ) -> Result<(), Fail> {
        let mut out = vec![in heap; 0u8; room]?;
        let printed = run_standard(trace, &mut out);
        out.truncate(printed);
        assert!(rt; out.as_slice() == want);
        Ok(())
    }

    // The same of each trace in turn, with room for all its lines.
    fn each_prints(rt: &impl Abort, heap: Global, cases: &[(&[u8], &[u8])]) -> Result<(), Fail> {
        for (trace, want) in cases {
            prints(rt, heap, trace, 200, want)?;
        }
        Ok(())
    }

    // A trace of a note of so many bytes.
    fn note_of(heap: Global, text: usize, field: u8) -> Result<Vec<u8>, Fail> {
        let mut trace = vec![in heap; 1, 0, field, 6]?;
        trace.extend(repeat_n(b'x', text))?;
        Ok(trace)
    }

    // A trace of so many bytes behind the version, all 0.
    fn zeros(heap: Global, count: usize) -> Result<Vec<u8>, Fail> {
        let mut trace = vec![in heap; 1u8]?;
        trace.extend(repeat_n(0, count))?;
        Ok(trace)
    }

    #[test]
    fn starts(rt: HostRuntime) -> Result<(), Fail> {
        let cases: [(&[u8], &[u8]); 4] = [
            (b"", b"! 1 T 0\n"),
            (b"\x02", b"! 1 T 0\n"),
            (b"\x00\x01\x06", b"! 1 T 0\n"),
            (b"\x01", b". 0\n"),
        ];
        each_prints(&rt, rt.alloc(), &cases)
    }

    #[test]
    fn refuses_long_traces(rt: HostRuntime) -> Result<(), Fail> {
        let longest = zeros(rt.alloc(), 65535)?;
        prints(&rt, rt.alloc(), &longest, 200, b"! 3 T 1\n")?;
        let too_long = zeros(rt.alloc(), 65536)?;
        prints(&rt, rt.alloc(), &too_long, 200, b"! 1 T 0\n")
    }

    fn add_copies(bytes: &mut Vec<u8>, part: &[u8], count: usize) -> Result<(), Fail> {
        for _ in 0..count {
            bytes.extend_from_slice(part)?;
        }
        Ok(())
    }

    // The version and 21,845 empty notes of 3 bytes are 65,536 bytes. Each note prints 3 bytes too, so the last one needs 100 of room
    // behind 65,532.
    #[test]
    fn reads_the_longest_trace(rt: HostRuntime) -> Result<(), Fail> {
        let mut trace = vec![in rt.alloc(); 1u8]?;
        add_copies(&mut trace, b"\x00\x01\x06", 21845)?;
        assert!(&rt; trace.len() == LONGEST_TRACE);
        let cases: [(usize, usize, &[u8]); 3] = [
            (65632, 21845, b". 21845\n"),
            (65631, 21844, b"! 10 T 65533\n"),
            // An output as long as the trace: exactly 100 bytes remain before the record at 65,437.
            (65536, 21813, b"! 10 T 65440\n"),
        ];
        for (room, notes, last) in &cases {
            let mut want = Vec::new(rt.alloc());
            add_copies(&mut want, b"# \n", *notes)?;
            want.extend_from_slice(last)?;
            prints(&rt, rt.alloc(), &trace, *room, &want)?;
        }
        trace.push(0)?;
        prints(&rt, rt.alloc(), &trace, 200, b"! 1 T 0\n")
    }

    #[test]
    fn is_cut_at_every_byte(rt: HostRuntime) -> Result<(), Fail> {
        for end in 0..14usize {
            let want: &[u8] = match end {
                0 => b"! 1 T 0\n",
                1 => b". 0\n",
                2..=5 => b"! 2 T 1\n",
                6 => b"# ab\n. 1\n",
                7..=8 => b"# ab\n! 2 T 6\n",
                9 => b"# ab\n# \n. 2\n",
                10..=12 => b"# ab\n# \n! 2 T 9\n",
                _ => b"# ab\n# \n# c\n. 3\n",
            };
            prints(&rt, rt.alloc(), &NOTES[0..end], 200, want)?;
        }
        Ok(())
    }

    // A record of each kind. Their length fields start at 1, 12, 17, 23, 26 and 40.
    const KINDS: [u8; 45] =
        *b"\x01\x00\x09\x01\x00\x00\x00\x01\x00\x00\x00\x00\x00\x03\x02\x03\xf8\x00\x04\x03\x00\x21\xff\x00\x01\x04\x00\x0c\x05\x00\x01\x00\x00\x00\x00\x00\x00\x00\x43\x34\x00\x03\x06ab";

    // Whichever byte a trace ends with, the records that are there whole are read, and then the end or a cut is seen.
    #[test]
    fn reads_kinds_cut_at_every_byte(rt: HostRuntime) -> Result<(), Fail> {
        let queued = QueuedWrite {
            tick: 281474976710656,
            port: 0x0043,
            byte: 0x34,
        };
        let records: [(usize, Record<'_>); 6] = [
            (12, Record::Advance(4294967296)),
            (17, Record::Read(0x03F8)),
            (23, Record::Write(0x0021, 0xFF)),
            (26, Record::Acknowledge),
            (40, Record::Queue(queued)),
            (45, Record::Note(b"ab")),
        ];
        for end in 1..=45usize {
            let mut reader = Reader::new(&KINDS[0..end]).map_err(|_| "no trace")?;
            let mut place = 1;
            for (next, record) in &records {
                if *next <= end {
                    assert!(&rt; reader.next() == Some(Ok(*record)));
                    place = *next;
                }
            }
            let want = if place == end {
                None
            } else {
                Some(Err(Refusal::CutOff))
            };
            assert!(&rt; reader.next() == want);
            assert!(&rt; reader.place() == place);
        }
        Ok(())
    }

    #[test]
    fn refuses_kinds(rt: HostRuntime) -> Result<(), Fail> {
        let cases: [(&[u8], &[u8]); 4] = [
            (b"\x01\x00\x00", b"! 3 T 1\n"),
            (b"\x01\x00\x01\x00", b"! 3 T 1\n"),
            (b"\x01\x00\x01\x07", b"! 3 T 1\n"),
            // What is cut off is not looked at.
            (b"\x01\x00\x02\x07", b"! 2 T 1\n"),
        ];
        each_prints(&rt, rt.alloc(), &cases)
    }

    #[test]
    fn refuses_lengths(rt: HostRuntime) -> Result<(), Fail> {
        let cases: [(&[u8], &[u8]); 5] = [
            (
                b"\x01\x00\x08\x01\x00\x00\x00\x00\x00\x00\x00",
                b"! 4 T 1\n",
            ),
            (b"\x01\x00\x02\x02\x00", b"! 4 T 1\n"),
            (b"\x01\x00\x05\x03\x00\x00\x00\x00", b"! 4 T 1\n"),
            (b"\x01\x00\x02\x04\x00", b"! 4 T 1\n"),
            (b"\x01\x00\x01\x05", b"! 4 T 1\n"),
        ];
        each_prints(&rt, rt.alloc(), &cases)
    }

    #[test]
    fn reads_notes(rt: HostRuntime) -> Result<(), Fail> {
        let cases: [(&[u8], &[u8]); 3] = [
            (b"\x01\x00\x03\x06\x20\x7e", b"#  ~\n. 1\n"),
            (b"\x01\x00\x02\x06\x1f", b"! 5 T 1\n"),
            (b"\x01\x00\x02\x06\x7f", b"! 5 T 1\n"),
        ];
        each_prints(&rt, rt.alloc(), &cases)?;
        let longest = note_of(rt.alloc(), 80, 81)?;
        prints(
            &rt,
            rt.alloc(),
            &longest,
            200,
            b"# xxxxxxxxxxxxxxxxxxxxxxxxxxxxxxxxxxxxxxxxxxxxxxxxxxxxxxxxxxxxxxxxxxxxxxxxxxxxxxxx\n. 1\n",
        )?;
        let too_long = note_of(rt.alloc(), 81, 82)?;
        prints(&rt, rt.alloc(), &too_long, 200, b"! 4 T 1\n")
    }

    #[test]
    fn runs_out_of_room(rt: HostRuntime) -> Result<(), Fail> {
        let cases: [(&[u8], usize, &[u8]); 6] = [
            (b"\x01\x00\x01\x06", 100, b"# \n. 1\n"),
            (b"\x01\x00\x01\x06", 99, b"! 10 T 1\n"),
            (b"\x01\x00\x01\x06\x00\x01\x06", 102, b"# \n! 10 T 4\n"),
            // Before the cut-off is seen, and cut to the room itself.
            (b"\x01\x00", 3, b"! 1"),
            (b"\x01", 2, b". "),
            (b"\x01", 0, b""),
        ];
        for (trace, room, want) in &cases {
            prints(&rt, rt.alloc(), trace, *room, want)?;
        }
        Ok(())
    }

    #[test]
    fn leaves_what_lies_behind(rt: HostRuntime) -> Result<(), Fail> {
        let mut out = [7u8; 6];
        assert_eq!(rt; run_standard(b"\x01", &mut out), 4);
        assert!(rt; out == *b". 0\n\x07\x07");
        // A record behind the first fault is not reached.
        prints(
            &rt,
            rt.alloc(),
            b"\x01\x00\x00\x00\x01\x04",
            200,
            b"! 3 T 1\n",
        )
    }

    // Holds a line, printed with so much room, to the bytes that it must have.
    fn shows(
        rt: &impl Abort,
        heap: Global,
        line: Line<'_>,
        room: usize,
        want: &[u8],
    ) -> Result<(), Fail> {
        let mut buffer = vec![in heap; 0u8; room]?;
        let printed = print(line, &mut buffer);
        buffer.truncate(printed);
        assert!(rt; buffer.as_slice() == want);
        Ok(())
    }

    fn print(line: Line<'_>, buffer: &mut [u8]) -> usize {
        let mut output = Output::new(buffer);
        output.line(line);
        output.place()
    }

    // A line of each format.
    #[test]
    fn prints_lines(rt: HostRuntime) -> Result<(), Fail> {
        let advanced = Line::Advanced {
            time: 281474976710656,
            edges: 0,
        };
        let read = Line::Read {
            port: 0x03F8,
            byte: 0xAB,
        };
        let wrote = Line::Wrote {
            port: 0xFFFF,
            byte: 0x09,
        };
        let refused = Line::Refused(Refused {
            refusal: Refusal::QueueFull,
            place: 65535,
        });
        let cases: [(Line<'_>, usize, &[u8]); 9] = [
            (advanced, 64, b"+ 281474976710656 0\n"),
            (read, 64, b"R 03F8 AB\n"),
            (wrote, 64, b"W FFFF 09\n"),
            (Line::Acknowledged(0x7C), 64, b"I 7C\n"),
            (
                Line::Queued(18446744073709551615),
                64,
                b"Q 18446744073709551615\n",
            ),
            (Line::Note(b"a note"), 64, b"# a note\n"),
            (refused, 64, b"! 9 Q 65535\n"),
            (Line::Records(10), 64, b". 10\n"),
            (Line::Records(10), 3, b". 1"),
        ];
        for (line, room, want) in &cases {
            shows(&rt, rt.alloc(), *line, *room, want)?;
        }
        Ok(())
    }
}
