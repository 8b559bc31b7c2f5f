//! `sfu check` by the worked example 26 of docs/EXAMPLES.md.
use crate::row::{Ended, Row, assert_ends};
use crate::stream::Stream;
use commands::check_lines;
use std::test::Fail;

/// Files.
const ROWS: [Row; 4] = [
    // Example 26: what is printed for example 4, behind its first line.
    Row {
        read: "kept 18 01d4c014 pair 4000 9020001 161\n\
            kept 17 01f40028 pair 68000 8960001 480\n\
            implied 19 01e4601e by 18 17 times 10 10 20\n",
        printed: "yes\n",
        said: "",
        code: 0,
    },
    // The pair of 17 replaced by that of 18.
    Row {
        read: "kept 18 01d4c014 pair 4000 9020001 161\n\
            kept 17 01f40028 pair 4000 9020001 161\n\
            implied 19 01e4601e by 18 17 times 10 10 20\n",
        printed: "no 2\n",
        said: "",
        code: 4,
    },
    // The implied line as a live one.
    Row {
        read: "kept 18 01d4c014 pair 4000 9020001 161\n\
            kept 17 01f40028 pair 68000 8960001 480\n\
            live 19 01e4601e\n",
        printed: "no 5 2\n",
        said: "",
        code: 4,
    },
    // A pair of no seconds, in a line that is the third of all.
    Row {
        read: "# kept\n\
            \n\
            kept 17 0007d028 pair 1000 1001 0\n",
        printed: "",
        said: "line 3: text\n",
        code: 4,
    },
];

#[test]
fn rows_of_check(rt: HostRuntime) -> Result<(), Fail> {
    let alloc = rt.alloc();
    for row in ROWS.iter() {
        let mut file = Stream::new(alloc, row.read);
        let mut printed = Stream::new(alloc, "");
        let mut said = Stream::new(alloc, "");
        let status = check_lines(alloc, &mut file, &mut printed, &mut said);
        assert_ends(&rt, row, &Ended::with(status, printed, said)?);
    }
    Ok(())
}
