use piletexts::{Command, Lines, read_command, same};

#[test]
fn lines_end_in_a_line_feed_or_at_the_end(rt: HostRuntime) {
    let texts: [(&[u8], usize); 6] = [
        (b"", 0),
        (b"\n", 1),
        (b"a", 1),
        (b"a\n", 1),
        (b"a\n\n", 2),
        (b"\na\nb", 3),
    ];
    for (text, count) in texts {
        let mut lines = Lines::new(text);
        for _ in 0..count {
            assert!(rt; lines.next().is_some());
        }
        assert!(rt; lines.next().is_none());
        assert_eq!(rt; lines.number(), count);
    }
}

#[test]
fn lines_come_in_their_order(rt: HostRuntime) {
    let mut lines = Lines::new(b"table\n\n.");
    assert_eq!(rt; lines.next(), Some(b"table".as_slice()));
    assert_eq!(rt; lines.next(), Some(b"".as_slice()));
    assert_eq!(rt; lines.next(), Some(b".".as_slice()));
    assert_eq!(rt; lines.next(), None);
}

#[test]
fn polls_are_read(rt: HostRuntime) {
    assert_eq!(rt; read_command(b"poll 0 255"), Some(Command::Poll(0, 255)));
    assert_eq!(rt; read_command(b"poll 007 1"), Some(Command::Poll(7, 1)));
}

#[test]
fn names_that_are_not_given_are_0(rt: HostRuntime) {
    let mut names = [0; 32];
    assert_eq!(rt; read_command(b"recast"), Some(Command::Recast(names)));
    names[0] = 255;
    assert_eq!(rt; read_command(b"recast 255"), Some(Command::Recast(names)));
    let names = [
        1, 2, 3, 4, 5, 6, 7, 8, 9, 10, 11, 12, 13, 14, 15, 16, 17, 18, 19, 20, 21, 22, 23, 24, 25,
        26, 27, 28, 29, 30, 31, 32,
    ];
    assert_eq!(rt;
        read_command(
            b"recast 1 2 3 4 5 6 7 8 9 10 11 12 13 14 15 16 17 18 19 20 21 22 23 24 25 26 27 28 29 30 31 32",
        ),
        Some(Command::Recast(names))
    );
}

#[test]
fn other_words_stand_alone(rt: HostRuntime) {
    assert_eq!(rt; read_command(b"table"), Some(Command::Table));
    assert_eq!(rt; read_command(b"after"), Some(Command::After));
    assert_eq!(rt; read_command(b"beside"), Some(Command::Beside));
}

#[test]
fn what_is_no_command(rt: HostRuntime) {
    let lines: [&[u8]; 20] = [
        b"",
        b" ",
        b"Table",
        b"tables",
        b"tabl",
        b"table ",
        b" table",
        b"table 1",
        b"after 1",
        b"beside ",
        b"poll",
        b"poll ",
        b"poll 1",
        b"poll 1 ",
        b"poll 1 2 3",
        b"poll 1  2",
        b"poll 256 1",
        b"recast ",
        b"recast 256",
        b"recast 1 x",
    ];
    for line in lines {
        assert_eq!(rt; read_command(line), None);
    }
    assert_eq!(rt;
        read_command(
            b"recast 1 2 3 4 5 6 7 8 9 10 11 12 13 14 15 16 17 18 19 20 21 22 23 24 25 26 27 28 29 30 31 32 33",
        ),
        None
    );
}

#[test]
fn the_same_bytes(rt: HostRuntime) {
    assert!(rt; same(b"", b""));
    assert!(rt; same(b"ab", b"ab"));
    assert!(rt; !same(b"ab", b"a"));
    assert!(rt; !same(b"ab", b"aB"));
}
