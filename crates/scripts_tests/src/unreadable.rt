use plays::{Unplayed, play, read_script};

#[test]
fn a_line_that_cannot_be_read(rt: HostRuntime) {
    let cases: [(&[u8], usize); 40] = [
        // a word that is not known, or operands that are no such numbers
        (b"poll 1 1\nfree\nstop\n", 3),
        (b"poll 1 1\nstep 256\n", 2),
        (b"poll 1 1\ndrive 65536 0\n", 2),
        (b"poll 1 1\ndrive 0 65536\n", 2),
        (b"poll 1 1\njudge 65536\n", 2),
        (b"poll 1 1\nlatest 0 65536\n", 2),
        // a medium or a call where no chart is on the stack
        (b"free\n", 1),
        (b"\n\nnarrow 3\npoll 1 1\n", 3),
        (b"step 0\n", 1),
        (b"restart\npoll 1 1\n", 1),
        (b"\nlog\npoll 1 1\n", 2),
        // a log that is not written in pairs of digits
        (b"poll 1 1\nlog 010\n", 2),
        (b"poll 1 1\nlog 0102\nlog 0q\n", 3),
        // a pile command or a medium after a log
        (b"poll 1 1\nlog\npoll 1 1\n", 3),
        (b"poll 1 1\nlog 00\nline\n", 3),
        // a pile command after a medium or a call
        (b"poll 1 1\nfree\npoll 1 1\n", 3),
        (b"poll 1 1\nstep 0\ntable\n.\n", 3),
        (b"poll 1 1\npoll 1 1\nline\nafter\n", 4),
        // a medium after a call
        (b"poll 1 1\nstep 0\nfree\n", 3),
        (b"poll 1 1\nline\njudge 32\n\nnarrow 1\n", 5),
        // what a pile cannot read
        (b"poll 1\n", 1),
        (b"after\n", 1),
        (b"poll 1 1\nbeside\njudge 32\n", 2),
        (b"table\n1 x\n.\nfree\n", 2),
        (b"table\n1\nfree\n.\nfree\n", 3),
        (b"table\n1", 3),
        // a chart text without its end, whatever it says
        (b"text", 2),
        (b"text\nmsc c;\nendmsc;\n", 4),
        (b"text\n#\n.x\n\njudge 32", 6),
        (b"poll 1 1\ntext\nmsc c;\n ..\n", 5),
        // a chart text that does not stand where a table may
        (b"text \nmsc c;\nendmsc;\n.\n", 1),
        (b"text c\nmsc c;\nendmsc;\n.\n", 1),
        (b"poll 1 1\nline\ntext\nmsc c;\nendmsc;\n.\n", 3),
        (b"poll 1 1\nrestart\ntext\n#\n.\n", 3),
        // before or behind chart texts
        (b"stop\ntext\n#\n.\n", 1),
        (b"text\nmsc c;\n\nendmsc;\n.\nafter\n", 6),
        (b"text\nmsc c;\nendmsc;\n.\n.\n", 5),
        // no chart at the end
        (b"", 1),
        (b"\n", 2),
        (b"\n\n", 3),
    ];
    for (text, line) in cases {
        assert_eq!(rt;
            read_script(rt.alloc(), text).err(),
            Some(Unplayed::Line(line))
        );
        assert_eq!(rt; play(rt.alloc(), text).err(), Some(Unplayed::Line(line)));
    }
}
